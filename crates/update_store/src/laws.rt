//! What holds of all updates.

ghost use Rattle.update_store.specs.Serial.{AllSerial};

/// Whatever steps clients take, in whatever order: the documents, their versions and the history are what the clients of the
/// history make of the first documents one after the other.
pub fn serial()
    ensures { AllSerial }
{}
