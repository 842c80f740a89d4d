//! What bodies begin with where their headers say little.

ghost use Rattle.std.specs.Prelude.{◌≡◌, ◌<◌, ◌≤◌, ◌++◌, ℤ};
ghost use Rattle.std.specs.Int.{w64, to_le_bytes, cast_unsigned};
ghost use Rattle.ua_value.specs.Node.{node_id};
ghost use Rattle.ua_service.specs.Message.{id_of};
ghost use Rattle.ua_service.specs.Headers.{request_header, request_header_at, response_header, response_header_at};

fn moment_bytes(now: i64) -> [u8; 8]
    ensures { result ≡ to_le_bytes w64 (cast_unsigned w64 now) }
{
    now.cast_unsigned().to_le_bytes()
}

fn request_head_at(id: u32, moment: [u8; 8], handle: u32) -> [u8; 33]
    requires wide { 256 ≤ id }
    requires narrow { id < 65536 }
    ensures { (now : ℤ) → moment ≡ to_le_bytes w64 (cast_unsigned w64 now) → result ≡ node_id.canon (id_of id) ++ request_header.canon (request_header_at now handle) }
{
    let [i0, i1, _, _] = id.to_le_bytes();
    let [m0, m1, m2, m3, m4, m5, m6, m7] = moment;
    let [h0, h1, h2, h3] = handle.to_le_bytes();
    [
        1, 0, i0, i1, 0, 0, m0, m1, m2, m3, m4, m5, m6, m7, h0, h1, h2, h3, 0, 0, 0, 0, 255, 255,
        255, 255, 0, 0, 0, 0, 0, 0, 0,
    ]
}

/// The bytes of an encoding's id in the form of four bytes and of the header that `request_header` makes: the moment in
/// ticks of 100 ns since 1601-01-01 UTC, the client's number for the request, and nothing else (OPC 10000-6, 5.2.9;
/// OPC 10000-4, 7.33). It takes no memory.
pub fn request_head(id: u32, now: i64, handle: u32) -> [u8; 33]
    requires wide { 256 ≤ id }
    requires narrow { id < 65536 }
    ensures { result ≡ node_id.canon (id_of id) ++ request_header.canon (request_header_at now handle) }
{
    request_head_at(id, moment_bytes(now), handle)
}

fn response_head_at(id: u32, moment: [u8; 8], handle: u32, status: u32) -> [u8; 28]
    requires wide { 256 ≤ id }
    requires narrow { id < 65536 }
    ensures { (now : ℤ) → moment ≡ to_le_bytes w64 (cast_unsigned w64 now) → result ≡ node_id.canon (id_of id) ++ response_header.canon (response_header_at now handle status) }
{
    let [i0, i1, _, _] = id.to_le_bytes();
    let [m0, m1, m2, m3, m4, m5, m6, m7] = moment;
    let [h0, h1, h2, h3] = handle.to_le_bytes();
    let [s0, s1, s2, s3] = status.to_le_bytes();
    [
        1, 0, i0, i1, m0, m1, m2, m3, m4, m5, m6, m7, h0, h1, h2, h3, s0, s1, s2, s3, 0, 255, 255,
        255, 255, 0, 0, 0,
    ]
}

/// The bytes of an encoding's id in the form of four bytes and of the header that `response_header` makes: the moment in
/// ticks of 100 ns since 1601-01-01 UTC, the handle of the request, the result, and no diagnostics, no texts and no
/// additional header (OPC 10000-6, 5.2.9; OPC 10000-4, 7.34). It takes no memory.
pub fn response_head(id: u32, now: i64, handle: u32, status: u32) -> [u8; 28]
    requires wide { 256 ≤ id }
    requires narrow { id < 65536 }
    ensures { result ≡ node_id.canon (id_of id) ++ response_header.canon (response_header_at now handle status) }
{
    response_head_at(id, moment_bytes(now), handle, status)
}
