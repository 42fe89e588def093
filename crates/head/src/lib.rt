// The head of a product file: the AWIPS token, the message header, the description block's fields, the scan time.
#![tactic(auto)]

pub mod header;
pub mod pdb;
