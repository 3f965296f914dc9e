//! What a certificate may hold, in numbers. The law is a function that does nothing, and whose contract
//! states it.
ghost use Rattle.proof_text.specs.Sizes.{CertificateLimits};

/// How many splits and labels nest, the greatest number, and the most bytes of a certificate.
pub fn certificate_limits()
    ensures { CertificateLimits }
{}
