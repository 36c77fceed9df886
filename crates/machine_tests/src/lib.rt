//! Tests over the public calls of the kernel, the machine, its runs and the compiler, of what no
//! clause says: worked programs under drivers on one thread, and in threads.
#![tactic(auto)]

#[cfg(test)]
mod awaiting;
#[cfg(test)]
mod calls;
#[cfg(test)]
mod cores;
#[cfg(test)]
mod driven;
#[cfg(test)]
mod drivers;
#[cfg(test)]
mod endless;
#[cfg(test)]
mod gates;
#[cfg(test)]
mod held;
#[cfg(test)]
mod iterations;
#[cfg(test)]
mod kernels;
#[cfg(test)]
mod links;
#[cfg(test)]
mod locals;
#[cfg(test)]
mod lying;
#[cfg(test)]
mod rounds;
#[cfg(test)]
mod sharing;
#[cfg(test)]
mod sure;
#[cfg(test)]
mod threads;
#[cfg(test)]
mod together;
#[cfg(test)]
mod worked;
