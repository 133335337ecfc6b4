//! Tests of the heaps: the same calls through each of them.
#![tactic(auto)]

#[cfg(test)]
mod calls;
#[cfg(test)]
mod references;
#[cfg(test)]
mod scripts;
#[cfg(test)]
mod set_scripts;
#[cfg(test)]
mod sets;
#[cfg(test)]
mod steps;
#[cfg(test)]
mod writing;
