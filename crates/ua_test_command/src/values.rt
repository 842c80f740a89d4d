//! The command `value`: one value of each type.

use crate::runs::expect;

#[test]
fn prints_values(rt: HostRuntime) {
    let node = "used 7 of 7\ncanon 0048\ntext i=72\n";
    let guid =
        "used 16 of 16\ncanon 912b967275fae64a8d28b404dc7daf63\ntext 72962b91-fa75-4ae6-8d28-b404dc7daf63\n";
    for (kind, digits, status, output) in [
        ("NodeId", "02000048000000", 0, node),
        ("Guid", "912B967275FAE64A8D28B404DC7DAF63", 0, guid),
        (
            "LocalizedText",
            "0302000000656EFFFFFFFF",
            0,
            "used 11 of 11\ncanon 0102000000656e\n",
        ),
        (
            "ExpandedNodeId",
            "8048FFFFFFFF",
            0,
            "used 6 of 6\ncanon 0048\n",
        ),
        ("NodeId", "4048", 1, "refused\n"),
        (
            "String",
            "0100000041FF",
            0,
            "used 5 of 6\ncanon 0100000041\n",
        ),
        ("NodeId", "", 1, "refused\n"),
        ("NodeId", "030100060000 00486F74E6B0B4", 2, ""),
        (
            "NodeId",
            "03010006000000486F74E6B0B4",
            0,
            "used 13 of 13\ncanon 03010006000000486f74e6b0b4\ntext ns=1;s=\"Hot\\xe6\\xb0\\xb4\"\n",
        ),
        (
            "NodeId",
            "040000912B967275FAE64A8D28B404DC7DAF63",
            0,
            "used 19 of 19\ncanon 040000912b967275fae64a8d28b404dc7daf63\ntext g=72962b91-fa75-4ae6-8d28-b404dc7daf63\n",
        ),
        (
            "NodeId",
            "05020002000000AB0C",
            0,
            "used 9 of 9\ncanon 05020002000000ab0c\ntext ns=2;b=ab0c\n",
        ),
        (
            "NodeId",
            "050200FFFFFFFF",
            0,
            "used 7 of 7\ncanon 050200ffffffff\ntext ns=2;b=null\n",
        ),
        (
            "NodeId",
            "030000FFFFFFFF",
            0,
            "used 7 of 7\ncanon 030000ffffffff\ntext s=null\n",
        ),
        (
            "NodeId",
            "030000030000007E225C",
            0,
            "used 10 of 10\ncanon 030000030000007e225c\ntext s=\"~\\x22\\x5c\"\n",
        ),
    ] {
        let errors = if status == 2 { "words\n" } else { "" };
        expect(&rt, &["value", kind, digits], "", status, output, errors);
    }
}

#[test]
fn reads_each_plain_type(rt: HostRuntime) {
    for (kind, digits, output) in [
        ("Boolean", "FF", "used 1 of 1\ncanon 01\n"),
        ("SByte", "FF00", "used 1 of 2\ncanon ff\n"),
        ("Byte", "80", "used 1 of 1\ncanon 80\n"),
        ("Int16", "0180", "used 2 of 2\ncanon 0180\n"),
        ("UInt16", "0180FF", "used 2 of 3\ncanon 0180\n"),
        ("Int32", "01000080", "used 4 of 4\ncanon 01000080\n"),
        ("UInt32", "01000080", "used 4 of 4\ncanon 01000080\n"),
        (
            "Int64",
            "0100000000000080",
            "used 8 of 8\ncanon 0100000000000080\n",
        ),
        (
            "UInt64",
            "010000000000008000",
            "used 8 of 9\ncanon 0100000000000080\n",
        ),
        ("Float", "0100C07F", "used 4 of 4\ncanon 0100c07f\n"),
        (
            "Double",
            "010000000000F87F",
            "used 8 of 8\ncanon 010000000000f87f\n",
        ),
        ("String", "00000000", "used 4 of 4\ncanon 00000000\n"),
        (
            "DateTime",
            "FFFFFFFFFFFFFFFF",
            "used 8 of 8\ncanon ffffffffffffffff\n",
        ),
        (
            "ByteString",
            "01000000FF",
            "used 5 of 5\ncanon 01000000ff\n",
        ),
        ("XmlElement", "FFFFFFFF", "used 4 of 4\ncanon ffffffff\n"),
        ("StatusCode", "00000B80", "used 4 of 4\ncanon 00000b80\n"),
        (
            "QualifiedName",
            "01000100000041",
            "used 7 of 7\ncanon 01000100000041\n",
        ),
    ] {
        expect(&rt, &["value", kind, digits], "", 0, output, "");
    }
    for (kind, digits) in [
        ("Boolean", ""),
        ("Int16", "01"),
        ("String", "FEFFFFFF"),
        ("String", "01000000FF"),
        ("XmlElement", "01000000FF"),
        ("ByteString", "02000000FF"),
        ("Guid", "912B967275FAE64A8D28B404DC7DAF"),
        ("LocalizedText", "04"),
    ] {
        expect(&rt, &["value", kind, digits], "", 1, "refused\n", "");
    }
}

#[test]
fn reads_each_type_that_holds_others(rt: HostRuntime) {
    for (kind, digits, output) in [
        (
            "Variant",
            "1A02000000AABB",
            "used 7 of 7\ncanon 0f02000000aabb\n",
        ),
        ("Variant", "00", "used 1 of 1\ncanon 00\n"),
        (
            "Variant",
            "C602000000010000000200000002000000020000000100000000",
            "used 25 of 26\ncanon c6020000000100000002000000020000000200000001000000\n",
        ),
        ("DiagnosticInfo", "10FFFFFFFF", "used 5 of 5\ncanon 00\n"),
        (
            "DataValue",
            "0197010000000100",
            "used 8 of 8\ncanon 0197010000000100\n",
        ),
        (
            "DataValue",
            "140000000000000000FFFF",
            "used 11 of 11\ncanon 1400000000000000000f27\n",
        ),
        (
            "ExtensionObject",
            "00480101000000FF",
            "used 8 of 8\ncanon 00480101000000ff\n",
        ),
    ] {
        expect(&rt, &["value", kind, digits], "", 0, output, "");
    }
    for (kind, digits) in [
        ("DiagnosticInfo", "80"),
        (
            "Variant",
            "C602000000010000000200000002000000020000000200000000",
        ),
        ("Variant", "1800"),
        ("Variant", "40"),
        ("DataValue", "40"),
        ("ExtensionObject", "004803"),
    ] {
        expect(&rt, &["value", kind, digits], "", 1, "refused\n", "");
    }
}
