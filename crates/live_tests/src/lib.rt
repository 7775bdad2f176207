//! Runs of traces by real threads that are held at gates: tests alone, of what no clause says, that workers run side by side.
#![tactic(auto)]

#[cfg(test)]
mod gates;
#[cfg(test)]
mod tests;
