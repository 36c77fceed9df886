//! Tests over the public calls with an allocation refused, up to the engines. Over worked programs
//! each call that finds no memory says so, leaves what it was given as it was, and is right when it
//! is made again.
#![tactic(auto)]

#[cfg(test)]
mod calls;
#[cfg(test)]
mod cores;
#[cfg(test)]
mod formulas;
#[cfg(test)]
mod plans;
#[cfg(test)]
mod programs;
#[cfg(test)]
mod rows;
#[cfg(test)]
mod runs;
#[cfg(test)]
mod texts;
