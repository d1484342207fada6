// The cases that are claimed of the model, and the stream of the listing: of the model, and of calls. Claims alone.
#![tactic(auto)]
