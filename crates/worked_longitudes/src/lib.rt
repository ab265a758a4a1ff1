// Longitudes of the Sun that the checker works from the definitions, every fraction exact: lines of the outside vectors, and the instants at which the
// apparent longitude and the polynomial longitude are known to be farthest apart. There is no code here.

#![tactic(auto)]
