//! Which certificates are to be asked for, so that verdicts may be.

use types_core::View;

/// The notarization of a view is to be asked for, since the verdict on the next one waits for it.
#[derive(Clone, Copy, Debug, PartialEq, Eq)]
pub struct CertificateFetch {
    /// The view whose verdict waits.
    pub proposal: View,
    /// The view whose notarization is missing.
    pub view: View,
}
