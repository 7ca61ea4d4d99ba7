//! Addresses, networks, numbers of autonomous systems, domain names and URLs as texts.
#![tactic(auto)]

mod address;
mod asn;
mod fqdn;
mod inside;
pub mod laws;
mod network;
mod plain_url;
mod printing;
mod reading;
mod web;

pub use address::Ip;
pub use asn::read_asn;
pub use fqdn::read_fqdn;
pub use inside::holds;
pub use network::Network;
pub use plain_url::is_plain_url;
pub use printing::{print_ip, print_network};
pub use reading::{read_ip, read_network};
pub use web::read_url;
