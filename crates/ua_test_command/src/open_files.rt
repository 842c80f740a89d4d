//! What is said at the start of `serve` of the files that it may have open.

use ua_command::say_of_limits;
use ua_test_runs::pages::Page;

/// The beginning of such a text as Linux writes it, with a limit of 1024 files and none of processes.
const LIMITS: &str =
    "Limit                     Soft Limit           Hard Limit           Units     \nMax processes             unlimited            unlimited            processes \nMax open files            1024                 524288               files     \nMax locked memory         8388608              8388608              bytes     \n";

const NO_LIMIT: &str =
    "Max open files            unlimited            unlimited            files     \n";

/// A limit of another thing alone.
const OTHER: &str =
    "Max processes             7                    7                    processes \n";

/// Whether this is said of so many connections at one time.
fn says(at_once: u32, limits: &str, said: &str) -> bool {
    let mut told = Page::new(4096);
    say_of_limits(at_once, limits, &mut told);
    told.text() == said.as_bytes()
}

#[test]
fn more_connections_than_files_are_said(rt: HostRuntime) {
    for (at_once, limits, said) in [
        (1019, LIMITS, ""),
        (
            1020,
            LIMITS,
            "  1020 connections at one time want 1025 open files, and 1024 are allowed, so some will have to wait: `ulimit -n 1025` before the start allows them\n",
        ),
        (
            65535,
            LIMITS,
            "  65535 connections at one time want 65540 open files, and 1024 are allowed, so some will have to wait: `ulimit -n 65540` before the start allows them\n",
        ),
        (
            1,
            "Max open files 5 5 files",
            "  1 connections at one time want 6 open files, and 5 are allowed, so some will have to wait: `ulimit -n 6` before the start allows them\n",
        ),
        (65535, NO_LIMIT, ""),
        (65535, OTHER, ""),
        (65535, "Max open files", ""),
        (65535, "", ""),
    ] {
        assert!(rt; says(at_once, limits, said), "{said}");
    }
}
