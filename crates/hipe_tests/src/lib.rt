//! Tests over the public functions of the libraries: what no clause says. One file has the tests of one library.
#![tactic(auto)]

#[cfg(test)]
mod files_and_sinks;
#[cfg(test)]
mod images;
#[cfg(test)]
mod machines;
#[cfg(test)]
mod modules;
#[cfg(test)]
mod rows_of_data;
#[cfg(test)]
mod rows_of_flow;
#[cfg(test)]
mod sparc_steps;
#[cfg(test)]
mod system_files;
#[cfg(test)]
mod terms;
#[cfg(test)]
mod texts;
#[cfg(test)]
mod words;
