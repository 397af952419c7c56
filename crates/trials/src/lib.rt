// The known outcomes and every refusal, run on both tables, and a day for C.
#![tactic(auto)]

#[cfg(test)]
mod crossed;
#[cfg(test)]
mod market;
#[cfg(test)]
mod outcomes;
#[cfg(test)]
mod refusals;
#[cfg(test)]
mod sessions;
#[cfg(test)]
mod showing;
#[cfg(test)]
mod tests;
