//! The names of statuses (OPC 10000-6, annex A), as far as one meets them around discovery.

use crate::text::Code;
use std::fmt;

/// The name of a status (OPC 10000-6, annex A), by its severity and sub-code, which are its bits 16 to 31: the others
/// say more about a value, and change no name (OPC 10000-4, 7.39.1). `None` where this table lacks it: it has those of
/// services, certificates, sessions, values, discovery, channels, connections and encodings.
pub fn status_name(code: u32) -> Option<&'static str> {
    let number = code >> 16;
    match number {
        0..=0x8010 => general_name(number),
        0x8011..=0x801e => certificate_name(number),
        0x801f..=0x8030 => session_name(number),
        0x8031..=0x804e => value_name(number),
        0x804f..=0x805a => discovery_name(number),
        0x805b..=0x8088 => connection_name(number),
        _ => later_name(number),
    }
}

fn general_name(number: u32) -> Option<&'static str> {
    match number {
        0x0000 => Some("Good"),
        0x002e => Some("GoodCompletesAsynchronously"),
        0x002f => Some("GoodOverload"),
        0x0030 => Some("GoodClamped"),
        0x4000 => Some("Uncertain"),
        0x8000 => Some("Bad"),
        0x8001 => Some("BadUnexpectedError"),
        0x8002 => Some("BadInternalError"),
        0x8003 => Some("BadOutOfMemory"),
        0x8004 => Some("BadResourceUnavailable"),
        0x8005 => Some("BadCommunicationError"),
        0x8006 => Some("BadEncodingError"),
        0x8007 => Some("BadDecodingError"),
        0x8008 => Some("BadEncodingLimitsExceeded"),
        0x8009 => Some("BadUnknownResponse"),
        0x800a => Some("BadTimeout"),
        0x800b => Some("BadServiceUnsupported"),
        0x800c => Some("BadShutdown"),
        0x800d => Some("BadServerNotConnected"),
        0x800e => Some("BadServerHalted"),
        0x800f => Some("BadNothingToDo"),
        0x8010 => Some("BadTooManyOperations"),
        _ => None,
    }
}

fn certificate_name(number: u32) -> Option<&'static str> {
    match number {
        0x8011 => Some("BadDataTypeIdUnknown"),
        0x8012 => Some("BadCertificateInvalid"),
        0x8013 => Some("BadSecurityChecksFailed"),
        0x8014 => Some("BadCertificateTimeInvalid"),
        0x8015 => Some("BadCertificateIssuerTimeInvalid"),
        0x8016 => Some("BadCertificateHostNameInvalid"),
        0x8017 => Some("BadCertificateUriInvalid"),
        0x8018 => Some("BadCertificateUseNotAllowed"),
        0x8019 => Some("BadCertificateIssuerUseNotAllowed"),
        0x801a => Some("BadCertificateUntrusted"),
        0x801b => Some("BadCertificateRevocationUnknown"),
        0x801c => Some("BadCertificateIssuerRevocationUnknown"),
        0x801d => Some("BadCertificateRevoked"),
        0x801e => Some("BadCertificateIssuerRevoked"),
        _ => None,
    }
}

fn session_name(number: u32) -> Option<&'static str> {
    match number {
        0x801f => Some("BadUserAccessDenied"),
        0x8020 => Some("BadIdentityTokenInvalid"),
        0x8021 => Some("BadIdentityTokenRejected"),
        0x8022 => Some("BadSecureChannelIdInvalid"),
        0x8023 => Some("BadInvalidTimestamp"),
        0x8024 => Some("BadNonceInvalid"),
        0x8025 => Some("BadSessionIdInvalid"),
        0x8026 => Some("BadSessionClosed"),
        0x8027 => Some("BadSessionNotActivated"),
        0x8028 => Some("BadSubscriptionIdInvalid"),
        0x802a => Some("BadRequestHeaderInvalid"),
        0x802b => Some("BadTimestampsToReturnInvalid"),
        0x802c => Some("BadRequestCancelledByClient"),
        _ => None,
    }
}

fn value_name(number: u32) -> Option<&'static str> {
    match number {
        0x8031 => Some("BadNoCommunication"),
        0x8032 => Some("BadWaitingForInitialData"),
        0x8033 => Some("BadNodeIdInvalid"),
        0x8034 => Some("BadNodeIdUnknown"),
        0x8035 => Some("BadAttributeIdInvalid"),
        0x8036 => Some("BadIndexRangeInvalid"),
        0x8037 => Some("BadIndexRangeNoData"),
        0x8038 => Some("BadDataEncodingInvalid"),
        0x8039 => Some("BadDataEncodingUnsupported"),
        0x803a => Some("BadNotReadable"),
        0x803b => Some("BadNotWritable"),
        0x803c => Some("BadOutOfRange"),
        0x803d => Some("BadNotSupported"),
        0x803e => Some("BadNotFound"),
        0x803f => Some("BadObjectDeleted"),
        0x8040 => Some("BadNotImplemented"),
        _ => None,
    }
}

fn discovery_name(number: u32) -> Option<&'static str> {
    match number {
        0x804f => Some("BadServerUriInvalid"),
        0x8050 => Some("BadServerNameMissing"),
        0x8051 => Some("BadDiscoveryUrlMissing"),
        0x8053 => Some("BadRequestTypeInvalid"),
        0x8054 => Some("BadSecurityModeRejected"),
        0x8055 => Some("BadSecurityPolicyRejected"),
        0x8056 => Some("BadTooManySessions"),
        0x8057 => Some("BadUserSignatureInvalid"),
        0x8058 => Some("BadApplicationSignatureInvalid"),
        0x8059 => Some("BadNoValidCertificates"),
        0x805a => Some("BadRequestCancelledByRequest"),
        _ => None,
    }
}

fn connection_name(number: u32) -> Option<&'static str> {
    match number {
        0x807d => Some("BadTcpServerTooBusy"),
        0x807e => Some("BadTcpMessageTypeInvalid"),
        0x807f => Some("BadTcpSecureChannelUnknown"),
        0x8080 => Some("BadTcpMessageTooLarge"),
        0x8081 => Some("BadTcpNotEnoughResources"),
        0x8082 => Some("BadTcpInternalError"),
        0x8083 => Some("BadTcpEndpointUrlInvalid"),
        0x8084 => Some("BadRequestInterrupted"),
        0x8085 => Some("BadRequestTimeout"),
        0x8086 => Some("BadSecureChannelClosed"),
        0x8087 => Some("BadSecureChannelTokenUnknown"),
        0x8088 => Some("BadSequenceNumberInvalid"),
        _ => None,
    }
}

fn later_name(number: u32) -> Option<&'static str> {
    match number {
        0x8089 => Some("BadConfigurationError"),
        0x808a => Some("BadNotConnected"),
        0x808b => Some("BadDeviceFailure"),
        0x808c => Some("BadSensorFailure"),
        0x808d => Some("BadOutOfService"),
        0x80ab => Some("BadInvalidArgument"),
        0x80ac => Some("BadConnectionRejected"),
        0x80ad => Some("BadDisconnect"),
        0x80ae => Some("BadConnectionClosed"),
        0x80af => Some("BadInvalidState"),
        0x80b8 => Some("BadRequestTooLarge"),
        0x80b9 => Some("BadResponseTooLarge"),
        0x80be => Some("BadProtocolVersionUnsupported"),
        0x80c6 => Some("BadIdentityChangeNotSupported"),
        0x80e6 => Some("BadSecurityModeInsufficient"),
        0x810d => Some("BadCertificateChainIncomplete"),
        0x8114 => Some("BadCertificatePolicyCheckFailed"),
        _ => None,
    }
}

/// A status as eight hex digits in upper case, and behind a blank its name where it is known.
#[derive(Clone, Copy)]
pub struct NamedCode(pub u32);

impl fmt::Display for NamedCode {
    fn fmt<W: fmt::Write>(&self, f: &mut fmt::Formatter<W>) -> fmt::Result {
        match status_name(self.0) {
            Some(name) => write!(f, "{} {name}", Code(self.0)),
            None => write!(f, "{}", Code(self.0)),
        }
    }
}
