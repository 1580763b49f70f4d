// The static library that a host links: one exported function for each published call. A state is lent by the host and stays its own; no function asks
// anything of its caller, and a state or an argument that is out of its form is refused with 1.
#![tactic(auto)]

mod ids_calls;
mod paths_calls;
mod timers_calls;
mod values_calls;
