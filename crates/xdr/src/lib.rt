// XDR (RFC 4506): the items that symbology packet 28 is made of, read one after another from a payload.
#![tactic(auto)]

pub mod each;
pub mod xdr;
