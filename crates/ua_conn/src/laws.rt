//! Laws of the definitions of a connection: what they say is true of every stream of bytes.

ghost use Rattle.ua_conn.specs.server.FirstFault.{StopsFirst};
ghost use Rattle.ua_conn.specs.server.Held.{ByRecord};
ghost use Rattle.ua_conn.specs.Reverse.{OpenedAsByClient, RefusedByClients, RefusedByServers, SaysHelloFirst};
ghost use Rattle.ua_conn.specs.client.FirstFault.{ClientStopsFirst, ClientStaysStopped};
ghost use Rattle.ua_conn.specs.client.Held.{ClientByRecord, RefusedByRecord};
ghost use Rattle.ua_conn.specs.client.Unanswered.{PendingIsUnanswered};
ghost use Rattle.ua_conn.specs.BothEnds.{Faithful, HandedAndAccepted, NothingRefused, NoneUnanswered};
ghost use Rattle.ua_conn.specs.server.Legal.{HasRoom, BeginsLegal};
ghost use Rattle.ua_conn.specs.server.Site.{Site};
ghost use Rattle.ua_conn.specs.server.Whole.{StaysStopped, SameForAnyCut};

/// What one more piece brings to a server that goes on depends on the record of what it holds and the piece alone:
/// the bytes that the reply gains, the requests that are handed on, the end, and the record then.
pub fn by_record()
    ensures { ByRecord }
{}

/// A reading stops at the least place where a row of the table of refusals holds or a CLO stands.
pub fn first_fault()
    ensures { StopsFirst }
{}

/// Once a stream has a fault or a CLO, what comes later changes neither reply, requests nor end.
pub fn stays_stopped()
    ensures { StaysStopped }
{}

/// Lists of pieces with one timed stream get one answer: one reply, the same requests handed on, and one end.
pub fn same_for_any_cut()
    ensures { SameForAnyCut }
{}

/// Nobody takes a ReverseHello that awaits none. Every server refuses it in every phase, and so does a client that opened
/// the connection itself or had one already: with 0x807E0000, wherever no row of the header refuses the frame first.
/// OPC 10000-6, 7.1.2.6.
pub fn reverse_hello_refused()
    ensures servers { RefusedByServers }
    ensures clients { RefusedByClients }
{}

/// A client that opens the connection says its Hello before all, whatever comes and is asked. OPC 10000-6, 7.1.3.
pub fn hello_first()
    ensures { SaysHelloFirst }
{}

/// A conversation that the server opens is the one that the client opens, behind the ReverseHello. Until that came whole
/// it was said, and nothing else happened; from then on each step of the schedule does what it does where the client
/// opens the connection at that moment and names the url of the ReverseHello. OPC 10000-6, 7.1.2.6.
pub fn opened_by_server()
    ensures { OpenedAsByClient }
{}

/// A server that takes frames of 8192 bytes refuses nothing in a list of frames, with nothing behind a CLO, exactly
/// where the list is a beginning of what a client may send.
pub fn legal()
    ensures { (site : Site) → HasRoom site → BeginsLegal site }
{}

/// A client's reading stops at the least place where a row of its table of refusals holds.
pub fn client_first_fault()
    ensures { ClientStopsFirst }
{}

/// Once a client has met a fault, what comes later changes neither the fault, the answers nor what it sends, and each
/// command is refused.
pub fn client_stays_stopped()
    ensures { ClientStaysStopped }
{}

/// What one more piece, or one more command that is accepted, brings to a client that has not failed depends on the
/// record of what it holds and the event alone: the bytes that it sends, the answers, the fault, and the record then.
pub fn client_by_record()
    ensures { ClientByRecord }
{}

/// Whether a client refuses a command, and for which reason, depends on the record of what it holds and the command
/// alone.
pub fn refused_by_record()
    ensures { RefusedByRecord }
{}

/// What is pending at a client is what it asked less what it answered, in the order of asking: each answer is for the
/// request that was asked under its id, no two are for one request, and each request is pending or answered.
pub fn pending()
    ensures { PendingIsUnanswered }
{}

/// After every schedule, what was delivered to the server is a beginning of what the client sent, and what was
/// delivered to the client a beginning of what the server answered.
pub fn faithful()
    ensures { Faithful }
{}

/// The law of both ends, its first part. For every setup and every schedule of requests that are values: what the
/// server is handed is a beginning of what the client asked, in order; and each answer that the client accepted stands
/// in the place of its request and under its id, and is the discovery answer at the moment at which the server had the
/// request whole, or the abort in its place where that answer passes the limits that the client's Hello names. Tokens
/// may die on the way, and not all need be delivered. OPC 10000-4, 5.5; OPC 10000-6, 6.7 and 7.1.
pub fn handed()
    ensures { HandedAndAccepted }
{}

/// Its second part. While each token lives that a delivered MSG or CLO names, counted from its issue at the end that
/// receives it: the server has met no fault, and neither has the client. OPC 10000-4, 5.6.2; OPC 10000-6, 6.7.
pub fn unrefused()
    ensures { NothingRefused }
{}

/// Its third part. While those tokens live, once all that was sent is delivered each way: all that was asked is handed
/// on, and each of it is answered.
pub fn answered()
    ensures { NoneUnanswered }
{}
