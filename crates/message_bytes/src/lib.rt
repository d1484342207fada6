// Which bytes stood for a counter: the message of an accepted update or definition. Claims alone.
#![tactic(auto)]
