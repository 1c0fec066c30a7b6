//! The commands of `euclidc`: words, files, answers.
#![tactic(auto)]

mod answer;
mod certificate_file;
mod check;
mod command;
mod convert;
mod decide;
mod decision;
mod exit;
mod file;
mod finding;
mod forms;
mod laws;
mod payment_file;
mod program_file;
mod prove;
mod refusal;
mod report;
mod role;
mod sample;
mod settings_file;
mod status;
mod table_file;
mod target;
mod top;
mod typed_file;
mod words;

pub use exit::run;
pub use forms::both_forms;
pub use status::Status;
pub use top::euclidc;
