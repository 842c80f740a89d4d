//! Laws of the definitions.

ghost use Rattle.std.specs.Prelude.{◌≡◌, ◌+◌, ◌<◌, ◌≤◌, ◌^◌, ℕ, List, length, take, Some};
ghost use Rattle.ua_frame.specs.Streams.{TimedByte, Framed, cuts_of, rest_of};
ghost use Rattle.ua_frame.specs.Layout.{Parts, frame_bytes, IsFrameOf};
ghost use Rattle.ua_frame.specs.HeaderRows.{header_fault};
ghost use Rattle.ua_frame.specs.Hello.{hello_layout, acknowledge_layout, error_layout, reverse_hello_layout, hello_of, acknowledge_of, error_of, reverse_hello_of};
ghost use Rattle.ua_frame.specs.declared.hello.Hello as hello;
ghost use Rattle.ua_frame.specs.declared.acknowledge.Ack as acknowledge;
ghost use Rattle.ua_frame.specs.declared.error_frame.ErrorFrame as error_frame;
ghost use Rattle.ua_frame.specs.declared.reverse_hello.ReverseHello as reverse_hello;

/// A stream is one list of frames and one rest: those of `cuts_of` and `rest_of`. OPC 10000-6, 7.1.2.2.
pub fn one_framing()
    ensures some { (s : List TimedByte) → Framed s (cuts_of s) (rest_of s) }
    ensures one { (s : List TimedByte) (fs gs : List (List TimedByte)) (r q : List TimedByte) →
        Framed s fs r → Framed s gs q → (fs ≡ gs) × (r ≡ q) }
{}

/// The header rows say of a frame's first 8 bytes what they say of the frame, and of all that begins with it.
pub fn header_decides()
    ensures { (limit n : ℕ) (bytes : List ℕ) → 8 ≤ n → header_fault limit (take n bytes) ≡ header_fault limit bytes }
{}

/// What is written is read back: the frame with its type, flag and fields, and the fields with their values.
pub fn written_is_read()
    ensures frame { (f : Parts) → 8 + length f.fields < 2 ^ 32 → IsFrameOf (frame_bytes f) f }
    ensures hello { (h : hello.Hello) → hello_layout.IsValue h → hello_of (hello_layout.canon h) ≡ Some h }
    ensures acknowledge { (a : acknowledge.Ack) → acknowledge_layout.IsValue a → acknowledge_of (acknowledge_layout.canon a) ≡ Some a }
    ensures error { (e : error_frame.ErrorFrame) → error_layout.IsValue e → error_of (error_layout.canon e) ≡ Some e }
    ensures reverse_hello { (r : reverse_hello.ReverseHello) → reverse_hello_layout.IsValue r → reverse_hello_of (reverse_hello_layout.canon r) ≡ Some r }
{}
