// Tables of questions to the libraries, with their answers: the worked cases are proved, the other examples run.
#![tactic(auto)]

#[cfg(test)]
mod checking;
#[cfg(test)]
mod checking_cases;
#[cfg(test)]
mod checking_limits;
#[cfg(test)]
mod clauses;
#[cfg(test)]
mod flags;
#[cfg(test)]
mod joining;
#[cfg(test)]
mod lent_tables;
#[cfg(test)]
mod minutes;
#[cfg(test)]
mod pairs;
#[cfg(test)]
mod records;
#[cfg(test)]
mod running;
#[cfg(test)]
mod sheets;
#[cfg(test)]
mod steps;
#[cfg(test)]
mod telling;
pub mod worked_cases;
