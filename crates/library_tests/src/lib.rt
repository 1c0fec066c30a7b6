//! Tests of the libraries by their public calls, where no whole command shows what they do. They stand here so that each
//! library is proved once.
#![tactic(auto)]

#[cfg(test)]
mod atoms;
#[cfg(test)]
mod cases;
#[cfg(test)]
mod certificates;
#[cfg(test)]
mod graphs;
#[cfg(test)]
mod option_sets;
#[cfg(test)]
mod payment_files;
#[cfg(test)]
mod payments;
#[cfg(test)]
mod programs;
#[cfg(test)]
mod samples;
#[cfg(test)]
mod search;
#[cfg(test)]
mod settings_files;
#[cfg(test)]
mod values;
