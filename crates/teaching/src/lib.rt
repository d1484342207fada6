// What a session that reads a whole store's messages comes to. No code.
#![tactic(auto)]
