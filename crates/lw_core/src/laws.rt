//! Laws of the serial step, in the words of its subject.
ghost use Rattle.lw_core.specs.Laws.{ArpLaw, EchoLaw, UdpLaw};
ghost use Rattle.lw_layers.specs.Sends.{SendLaw};
ghost use Rattle.lw_layers.specs.Ticks.{FragmentsLaw};

/// An ARP request for the own address is answered to its sender (RFC 826): the reply is the first frame
/// that goes out.
pub fn arp_request_is_answered()
    ensures { ArpLaw }
{}

/// An echo request to the own address, from a sender whose next hop is known, gets exactly one reply,
/// with its identifier, its sequence number and its data (RFC 792).
pub fn echo_request_is_answered()
    ensures { EchoLaw }
{}

/// A datagram that doesn't become whole is given up at the 60th tick after its first fragment came, and
/// not before (RFC 791, section 3.2).
pub fn fragments_end_at_sixty_ticks()
    ensures { FragmentsLaw }
{}

/// A short datagram of a call, to a peer whose next hop is known, goes out in exactly one frame: the IPv4
/// header, the head of UDP and the octets of the call (RFC 768).
pub fn datagram_is_sent()
    ensures { SendLaw }
{}

/// A datagram of UDP to the own address, for whose port there is an end, is posted to the least connection
/// of the best class, with its data alone, and nothing is sent (RFC 768; RFC 1122, 4.1.3).
pub fn datagram_is_delivered()
    ensures { UdpLaw }
{}
