// Tests of the crate `wire`: what its readers answer at the edges of every rule, and what its writers leave.
#![tactic(auto)]

#[cfg(test)]
mod cases;
#[cfg(test)]
mod example;
#[cfg(test)]
mod request_cases;
#[cfg(test)]
mod tests;
#[cfg(test)]
mod writing;
