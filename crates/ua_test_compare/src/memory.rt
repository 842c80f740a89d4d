//! Each growth of memory is had, or its refusal said. This test is run with each growth refused in turn
//! (tools/refuse-growths).

use crate::endpoints::{ANONYMOUS, PLAIN, USER};
use crate::making::{Endpoint, Said, outcome};
use ua_service::EndpointDescription;

const OTHER: Endpoint<'static> = Endpoint {
    tokens: Some(&[ANONYMOUS, USER]),
    level: 7,
    ..PLAIN
};

const THIRD: Endpoint<'static> = Endpoint { mode: 2, ..PLAIN };

#[test]
fn differences_or_no_memory(rt: HostRuntime) {
    let said = outcome::<EndpointDescription, Endpoint>(
        rt.alloc(),
        &[PLAIN, THIRD],
        &[OTHER],
        "endpoint \"opc.tcp://a:4840\" mode=1 policy=\"#None\" transport=\"uatcp\" UserIdentityTokens extra \"user\"\nendpoint \"opc.tcp://a:4840\" mode=1 policy=\"#None\" transport=\"uatcp\" SecurityLevel wanted=0 found=7\nmissing endpoint \"opc.tcp://a:4840\" mode=2 policy=\"#None\" transport=\"uatcp\"\n",
    );
    assert!(rt; said == Said::AsExpected || said == Said::NoMemory);
}
