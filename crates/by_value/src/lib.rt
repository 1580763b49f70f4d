// The published calls by value, exported for the benchmark alone: hosts link `vignorasc`, whose calls work on a state that the host lends.
#![tactic(auto)]

mod ids_calls;
mod paths_calls;
mod timers_calls;
mod values_calls;
