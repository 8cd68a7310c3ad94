// What the code of step 3 keeps of the pool, the records' words and the marks: relations and laws.
#![tactic(auto)]
