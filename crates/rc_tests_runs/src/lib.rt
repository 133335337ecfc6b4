//! Tests of what counts and runs programs, above all that they call. What texts come to, as a program
//! or as a refusal, stands in the rows of rc_rows.
#![tactic(auto)]

#[cfg(test)]
mod arithmetic;
#[cfg(test)]
mod counting;
#[cfg(test)]
mod evaluating;
#[cfg(test)]
mod memory;
#[cfg(test)]
mod outside;
#[cfg(test)]
mod several;
#[cfg(test)]
mod summaries;
