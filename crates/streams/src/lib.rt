// No code: what every receiver of bytes has in common, over any states, answers and byte model.
#![tactic(auto)]
