//! What is said of endpoints.

use crate::applications::PRESS;
use crate::making::{Application, Endpoint, Said, Token, outcome};
use std::alloc::Global;
use ua_service::EndpointDescription;

pub(crate) const ANONYMOUS: Token<'static> = Token {
    id: Some("anonymous"),
    kind: 0,
    issued: None,
    issuer: None,
    policy: None,
};

pub(crate) const USER: Token<'static> = Token {
    id: Some("user"),
    kind: 1,
    issued: None,
    issuer: None,
    policy: None,
};

pub(crate) const PLAIN: Endpoint<'static> = Endpoint {
    url: Some("opc.tcp://a:4840"),
    server: PRESS,
    certificate: None,
    mode: 1,
    policy: Some("#None"),
    tokens: Some(&[ANONYMOUS]),
    transport: Some("uatcp"),
    level: 0,
};

fn are(alloc: Global, wanted: &[Endpoint], found: &[Endpoint], lines: &str) -> bool {
    outcome::<EndpointDescription, Endpoint>(alloc, wanted, found, lines) == Said::AsExpected
}

/// Another endpoint for the plain one, and the line behind its name. The digest is that of `abc` in FIPS 180.
const FIELDS: [(Endpoint<'static>, &str); 9] = [
    (
        Endpoint {
            server: Application {
                uri: Some("urn:x"),
                ..PRESS
            },
            ..PLAIN
        },
        "endpoint \"opc.tcp://a:4840\" mode=1 policy=\"#None\" transport=\"uatcp\" Server.ApplicationUri wanted=\"urn:plant-3:press-7\" found=\"urn:x\"\n",
    ),
    (
        Endpoint {
            server: Application { kind: 2, ..PRESS },
            ..PLAIN
        },
        "endpoint \"opc.tcp://a:4840\" mode=1 policy=\"#None\" transport=\"uatcp\" Server.ApplicationType wanted=0 found=2\n",
    ),
    (
        Endpoint {
            certificate: Some(b"abc"),
            ..PLAIN
        },
        "endpoint \"opc.tcp://a:4840\" mode=1 policy=\"#None\" transport=\"uatcp\" ServerCertificate wanted=null found=3:a9993e364706816aba3e25717850c26c9cd0d89d\n",
    ),
    (
        Endpoint {
            level: 255,
            ..PLAIN
        },
        "endpoint \"opc.tcp://a:4840\" mode=1 policy=\"#None\" transport=\"uatcp\" SecurityLevel wanted=0 found=255\n",
    ),
    (
        Endpoint {
            tokens: Some(&[]),
            ..PLAIN
        },
        "endpoint \"opc.tcp://a:4840\" mode=1 policy=\"#None\" transport=\"uatcp\" UserIdentityTokens missing \"anonymous\"\n",
    ),
    (
        Endpoint {
            tokens: Some(&[USER, ANONYMOUS]),
            ..PLAIN
        },
        "endpoint \"opc.tcp://a:4840\" mode=1 policy=\"#None\" transport=\"uatcp\" UserIdentityTokens extra \"user\"\n",
    ),
    (
        Endpoint {
            tokens: Some(&[Token {
                kind: 3,
                ..ANONYMOUS
            }]),
            ..PLAIN
        },
        "endpoint \"opc.tcp://a:4840\" mode=1 policy=\"#None\" transport=\"uatcp\" UserIdentityTokens \"anonymous\" TokenType wanted=0 found=3\n",
    ),
    (
        Endpoint {
            tokens: Some(&[Token {
                issued: Some("jwt"),
                issuer: Some("https://i"),
                policy: Some("#P"),
                ..ANONYMOUS
            }]),
            ..PLAIN
        },
        "endpoint \"opc.tcp://a:4840\" mode=1 policy=\"#None\" transport=\"uatcp\" UserIdentityTokens \"anonymous\" IssuedTokenType wanted=null found=\"jwt\"\nendpoint \"opc.tcp://a:4840\" mode=1 policy=\"#None\" transport=\"uatcp\" UserIdentityTokens \"anonymous\" IssuerEndpointUrl wanted=null found=\"https://i\"\nendpoint \"opc.tcp://a:4840\" mode=1 policy=\"#None\" transport=\"uatcp\" UserIdentityTokens \"anonymous\" SecurityPolicyUri wanted=null found=\"#P\"\n",
    ),
    (PLAIN, ""),
];

#[test]
fn each_field_has_its_line(rt: HostRuntime) {
    for (found, line) in FIELDS {
        assert!(rt; are(rt.alloc(), &[PLAIN], &[found], line), "{line}");
    }
}

/// Each part of the name of an endpoint, and the line of what stands alone.
const NAMES: [(Endpoint<'static>, &str); 4] = [
    (
        Endpoint { url: None, ..PLAIN },
        "extra endpoint null mode=1 policy=\"#None\" transport=\"uatcp\"\n",
    ),
    (
        Endpoint { mode: 3, ..PLAIN },
        "extra endpoint \"opc.tcp://a:4840\" mode=3 policy=\"#None\" transport=\"uatcp\"\n",
    ),
    (
        Endpoint {
            policy: Some("#B"),
            ..PLAIN
        },
        "extra endpoint \"opc.tcp://a:4840\" mode=1 policy=\"#B\" transport=\"uatcp\"\n",
    ),
    (
        Endpoint {
            transport: None,
            ..PLAIN
        },
        "extra endpoint \"opc.tcp://a:4840\" mode=1 policy=\"#None\" transport=null\n",
    ),
];

const MISSING_PLAIN: &str =
    "missing endpoint \"opc.tcp://a:4840\" mode=1 policy=\"#None\" transport=\"uatcp\"\n";

#[test]
fn each_part_of_a_name_tells_endpoints_apart(rt: HostRuntime) {
    for (found, line) in NAMES {
        assert!(rt; are(rt.alloc(), &[PLAIN], &[found, PLAIN], line), "{line}");
    }
    assert!(rt; are(rt.alloc(), &[PLAIN], &[], MISSING_PLAIN));
}

/// Two lists of the same policies, and the line behind the name of their endpoint.
const LISTS: [(Endpoint<'static>, Endpoint<'static>, &str); 2] = [
    (
        Endpoint {
            tokens: Some(&[ANONYMOUS, USER]),
            ..PLAIN
        },
        Endpoint {
            tokens: Some(&[USER, ANONYMOUS]),
            ..PLAIN
        },
        "endpoint \"opc.tcp://a:4840\" mode=1 policy=\"#None\" transport=\"uatcp\" UserIdentityTokens wanted=[\"anonymous\",\"user\"] found=[\"user\",\"anonymous\"]\n",
    ),
    (
        Endpoint {
            tokens: Some(&[]),
            ..PLAIN
        },
        Endpoint {
            tokens: None,
            ..PLAIN
        },
        "endpoint \"opc.tcp://a:4840\" mode=1 policy=\"#None\" transport=\"uatcp\" UserIdentityTokens wanted=[] found=null\n",
    ),
];

/// The policies in another order, and a list that is null.
#[test]
fn other_lists_of_the_same_policies_have_a_line(rt: HostRuntime) {
    for (wanted, found, line) in LISTS {
        assert!(rt; are(rt.alloc(), &[wanted], &[found], line), "{line}");
    }
}
