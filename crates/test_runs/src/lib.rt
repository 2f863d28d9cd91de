//! What no clause says: whole runs over memory, by their status and the bytes that the sink holds.
//! The expected texts were worked by hand, or come from other programs.
#![tactic(auto)]

#[cfg(test)]
mod reads;
#[cfg(test)]
mod runs;
#[cfg(test)]
mod same;
#[cfg(test)]
mod searches;
#[cfg(test)]
mod texts;
#[cfg(test)]
mod worked;
#[cfg(test)]
mod workers;
#[cfg(test)]
mod writes;
