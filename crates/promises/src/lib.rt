// What is promised and proved of the part, on one page that names the records of it: specs/Promises.antt. There is no code here.
#![tactic(auto)]
