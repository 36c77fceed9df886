//! Tests over the public calls of the crates of loops, of what no clause says: subscripts,
//! dependences, private scalars, plans and their check.
#![tactic(auto)]

#[cfg(test)]
mod asked;
#[cfg(test)]
mod calls;
#[cfg(test)]
mod changes;
#[cfg(test)]
mod looks;
#[cfg(test)]
mod marks;
#[cfg(test)]
mod meeting;
#[cfg(test)]
mod obstacles;
#[cfg(test)]
mod overlap;
#[cfg(test)]
mod plans;
