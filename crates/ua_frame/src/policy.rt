//! Security policies.

/// The URI of the policy None, which is the one that is spoken (OPC 10000-7, SecurityPolicy - None).
pub const POLICY_NONE: &str = "http://opcfoundation.org/UA/SecurityPolicy#None";
