// The rules of the service: the member, the carrier, the group and the outward machine. They are definitions alone, in
// specs/.
#![tactic(auto)]
