//! Connector settings: reading them, which payments they take, and the graph whose goal holds exactly where they do.
#![tactic(auto)]

mod acceptance;
mod amount;
mod demand;
mod error;
mod fit;
mod keys;
mod layout;
mod limits;
mod reading;
mod settings;
mod walk;
mod word;

pub use error::SettingsError;
pub use fit::settings_fit;
pub use layout::{ConnectorGraph, graph_of};
pub use reading::read_settings;
pub use settings::{Accept, Connector, Method, Settings, TypeEntry};
pub use walk::takes;
