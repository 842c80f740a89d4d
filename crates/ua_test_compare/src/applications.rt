//! What is said of applications.

use crate::making::{Application, Said, outcome};
use std::alloc::Global;
use ua_service::ApplicationDescription;

pub(crate) const PRESS: Application<'static> = Application {
    uri: Some("urn:plant-3:press-7"),
    product: Some("urn:example:press"),
    locale: Some("en"),
    name: Some("Press 7"),
    kind: 0,
    gateway: None,
    profile: None,
    urls: Some(&["opc.tcp://press-7.example:4840"]),
};

const OVEN: Application<'static> = Application {
    uri: Some("urn:plant-3:oven-1"),
    product: Some("urn:example:oven"),
    locale: None,
    name: Some("Oven 1"),
    kind: 0,
    gateway: None,
    profile: None,
    urls: Some(&["opc.tcp://oven-1.example:4840"]),
};

fn are(alloc: Global, wanted: &[Application], found: &[Application], lines: &str) -> bool {
    outcome::<ApplicationDescription, Application>(alloc, wanted, found, lines) == Said::AsExpected
}

/// The press as it is wanted, the press as it was found, and the line.
const FIELDS: [(Application<'static>, Application<'static>, &str); 9] = [
    (
        PRESS,
        Application {
            product: Some("urn:example:\"press\""),
            ..PRESS
        },
        "application \"urn:plant-3:press-7\" ProductUri wanted=\"urn:example:press\" found=\"urn:example:\\x22press\\x22\"\n",
    ),
    (
        PRESS,
        Application {
            locale: None,
            ..PRESS
        },
        "application \"urn:plant-3:press-7\" ApplicationName.Locale wanted=\"en\" found=null\n",
    ),
    (
        PRESS,
        Application {
            name: Some(""),
            ..PRESS
        },
        "application \"urn:plant-3:press-7\" ApplicationName.Text wanted=\"Press 7\" found=\"\"\n",
    ),
    (
        PRESS,
        Application { kind: 3, ..PRESS },
        "application \"urn:plant-3:press-7\" ApplicationType wanted=0 found=3\n",
    ),
    (
        PRESS,
        Application {
            gateway: Some(""),
            ..PRESS
        },
        "application \"urn:plant-3:press-7\" GatewayServerUri wanted=null found=\"\"\n",
    ),
    (
        Application {
            profile: Some("urn:profile"),
            ..PRESS
        },
        PRESS,
        "application \"urn:plant-3:press-7\" DiscoveryProfileUri wanted=\"urn:profile\" found=null\n",
    ),
    (
        PRESS,
        Application {
            urls: Some(&["opc.tcp://a", "opc.tcp://b"]),
            ..PRESS
        },
        "application \"urn:plant-3:press-7\" DiscoveryUrls wanted=[\"opc.tcp://press-7.example:4840\"] found=[\"opc.tcp://a\",\"opc.tcp://b\"]\n",
    ),
    (
        Application {
            urls: None,
            ..PRESS
        },
        Application {
            urls: Some(&[]),
            ..PRESS
        },
        "application \"urn:plant-3:press-7\" DiscoveryUrls wanted=null found=[]\n",
    ),
    (
        Application {
            uri: None,
            kind: -1,
            gateway: None,
            ..PRESS
        },
        Application {
            uri: None,
            kind: 2147483647,
            gateway: Some("urn:g"),
            ..PRESS
        },
        "application null ApplicationType wanted=-1 found=2147483647\napplication null GatewayServerUri wanted=null found=\"urn:g\"\n",
    ),
];

#[test]
fn each_field_has_its_line(rt: HostRuntime) {
    for (wanted, found, line) in FIELDS {
        assert!(rt; are(rt.alloc(), &[wanted], &[found], line), "{line}");
    }
}

#[test]
fn no_difference_has_no_line(rt: HostRuntime) {
    assert!(rt; are(rt.alloc(), &[], &[], ""));
    assert!(rt; are(rt.alloc(), &[PRESS, OVEN], &[PRESS, OVEN], ""));
    assert!(rt; are(rt.alloc(), &[PRESS, OVEN, PRESS], &[OVEN, PRESS, PRESS], ""));
}

const MISSING_PRESS: &str = "missing application \"urn:plant-3:press-7\"\n";

const EXTRA_OVEN: &str = "extra application \"urn:plant-3:oven-1\"\n";

#[test]
fn what_stands_alone_is_missing_or_extra(rt: HostRuntime) {
    assert!(rt; are(rt.alloc(), &[PRESS], &[], MISSING_PRESS));
    assert!(rt; are(rt.alloc(), &[PRESS], &[OVEN, PRESS], EXTRA_OVEN));
    assert!(rt;
        are(
            rt.alloc(),
            &[PRESS],
            &[OVEN],
            "missing application \"urn:plant-3:press-7\"\nextra application \"urn:plant-3:oven-1\"\n"
        )
    );
    // null is not the empty text
    let none = Application { uri: None, ..PRESS };
    let empty = Application {
        uri: Some(""),
        ..PRESS
    };
    assert!(rt;
        are(
            rt.alloc(),
            &[none],
            &[empty],
            "missing application null\nextra application \"\"\n"
        )
    );
}

/// Of one name twice: those that are the same are paired whatever their order, the rest in their order, and what is left over
/// stands alone.
#[test]
fn doubled_names_are_paired_in_their_order(rt: HostRuntime) {
    let second = Application { kind: 1, ..PRESS };
    let third = Application { kind: 2, ..PRESS };
    let fourth = Application { kind: 3, ..PRESS };
    assert!(rt; are(rt.alloc(), &[PRESS, second], &[second, PRESS], ""));
    assert!(rt;
        are(
            rt.alloc(),
            &[PRESS, second],
            &[third, second, fourth],
            "application \"urn:plant-3:press-7\" ApplicationType wanted=0 found=2\nextra application \"urn:plant-3:press-7\"\n"
        )
    );
    assert!(rt;
        are(
            rt.alloc(),
            &[PRESS, second],
            &[third, fourth],
            "application \"urn:plant-3:press-7\" ApplicationType wanted=0 found=2\napplication \"urn:plant-3:press-7\" ApplicationType wanted=1 found=3\n"
        )
    );
    assert!(rt; are(rt.alloc(), &[PRESS, PRESS], &[PRESS], MISSING_PRESS));
}
