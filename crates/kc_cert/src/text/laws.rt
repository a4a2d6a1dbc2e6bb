// What certificates' texts have, for a reader to believe and a caller to learn.
ghost use Rattle.kc_cert.specs.Text.CertTexts.{TextsTold};

/// Does nothing. A certificate is read from exactly its text, and where bytes are no certificate's text, reading tells the
/// length of their longest front that begins one's.
pub fn know_texts()
    ensures { TextsTold }
{}
