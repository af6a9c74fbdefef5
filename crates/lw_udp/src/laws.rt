//! Laws of the table, in the words of its subject.
ghost use Rattle.lw_udp.specs.Laws.{DeliveryLaw, LivePortLaw, PortsLaw, RemovedLaw};

/// A datagram goes to the least connection of the best class (RFC 1122, section 4.1.3.5).
pub fn goes_to_the_first()
    ensures { DeliveryLaw }
{}

/// A port that was given isn't given again while it is live.
pub fn live_port_is_not_given_again()
    ensures { LivePortLaw }
{}

/// What was removed is never found again.
pub fn removed_is_not_found()
    ensures { RemovedLaw }
{}

/// The ephemeral ports are all from 49,152 to 65,535, in rising order, and 49,152 comes after 65,535.
pub fn ephemeral_ports_rise()
    ensures { PortsLaw }
{}
