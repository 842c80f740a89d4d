//! The ids of the encodings of messages in OPC UA Binary: numbers in namespace 0, with which their
//! bodies begin (OPC 10000-6, 5.2.9 and annex A).

/// A ServiceFault (OPC 10000-4, 7.35).
pub const SERVICE_FAULT: u32 = 397;

/// A FindServersRequest (OPC 10000-4, 5.5.2).
pub const FIND_SERVERS_REQUEST: u32 = 422;

/// A FindServersResponse (OPC 10000-4, 5.5.2).
pub const FIND_SERVERS_RESPONSE: u32 = 425;

/// A GetEndpointsRequest (OPC 10000-4, 5.5.4).
pub const GET_ENDPOINTS_REQUEST: u32 = 428;

/// A GetEndpointsResponse (OPC 10000-4, 5.5.4).
pub const GET_ENDPOINTS_RESPONSE: u32 = 431;

/// An OpenSecureChannelRequest (OPC 10000-4, 5.6.2).
pub const OPEN_REQUEST: u32 = 446;

/// An OpenSecureChannelResponse (OPC 10000-4, 5.6.2).
pub const OPEN_RESPONSE: u32 = 449;

/// A CloseSecureChannelRequest (OPC 10000-4, 5.6.3).
pub const CLOSE_REQUEST: u32 = 452;
