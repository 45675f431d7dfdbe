//! In which order those who listen are told. The functions compute nothing: their contracts are the laws.

ghost use Rattle.listeners.specs.Steps.{EveryConnectionKeepsItsOrder, EveryEventGoesInOrder};

/// After any registrations and closings, the listeners of a connection are those that it registered since it was last
/// closed, in that order.
pub fn every_connection_keeps_its_order()
    ensures { EveryConnectionKeepsItsOrder }
{}

/// After any registrations and closings, the events of a release, and those of an adoption, go to the connections in
/// the order of their numbers.
pub fn every_event_goes_in_order()
    ensures { EveryEventGoesInOrder }
{}
