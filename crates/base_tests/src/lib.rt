//! Tests of numbers, texts, words of the generator, schemas and the check, over public items alone.
#![tactic(auto)]

#[cfg(test)]
mod checks;
#[cfg(test)]
mod counts;
#[cfg(test)]
mod generator;
#[cfg(test)]
mod ring;
#[cfg(test)]
mod schemas;
#[cfg(test)]
mod texts;
