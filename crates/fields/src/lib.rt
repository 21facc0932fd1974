// The register map, the fields of CR, ESCR, ESUR, CWSTRT and CWSIZE, and the values that CR refuses, in code. Each function answers for every number, and
// its contract gives the answer by a definition of `registers`.
#![tactic(auto)]

pub mod control;
pub mod delimiters;
pub mod map;
pub mod window;
