//! The answer to a request for a judgement.
ghost use Rattle.std.specs.Prelude.{◌≡◌, ℕ, ◌≤◌, Some, length, IfOk, IsErrOf};
ghost use Rattle.rg_ports.specs.Count.{HasRisen};
ghost use Rattle.rg_lts.specs.WellFormed.{IsWellFormed};
ghost use Rattle.rg_cert_data.specs.Certificates.{claim_of, IsCertificateOf};
ghost use Rattle.rg_cert.specs.Spells.{Spells};
ghost use Rattle.rg_text.specs.Limits.{most_bytes};
ghost use Rattle.rg_top.specs.Verify.{VerifyEnds};
ghost use Rattle.rg_top.specs.Requests.{end_of, asked_more, ReadsMore, JudgesBytes};
ghost use Rattle.rg_top.specs.declared.answer.Stop.TheVariants as stop;

use crate::answer::{Answer, Stop};
use crate::files::{FileStop, read_bytes};
use rg_cert::{CertFault, read};
use rg_cert_data::Certificate;
use rg_lts::Lts;
use rg_memory::NoMemory;
use rg_messages::{FileFault, accepted_text, defect_text, fault_text};
use rg_ports::Shelf;
use rg_verify::{Verdict, verify};
use std::alloc::Global;

// Whether the certificate of the file holds for the system.
pub(crate) fn judgement_answer<H: Shelf>(
    alloc: Global,
    lts: &Lts,
    cert: &str,
    shelf: &mut H,
) -> Result<Answer, Stop>
    ensures files { H.files shelf.new ≡ H.files shelf.old }
    ensures asked { H.asked shelf.new ≡ asked_more (H.asked shelf.old) (Some cert.now) }
    ensures reads { ReadsMore H.finds H.hands (Some cert.now) shelf.old shelf.new }
    ensures ok { IfOk result (λ a. VerifyEnds (H.files shelf.old) cert.now lts.now (end_of a)) }
    ensures never_falls { H.faults shelf.old ≤ H.faults shelf.new }
    ensures fault { IsErrOf result stop.ReadFault → HasRisen (H.faults shelf.old) (H.faults shelf.new) }
{
    lts.is_well_formed();
    match read_bytes(alloc, shelf, cert) {
        Ok(bytes) => Ok(bytes_answer(alloc, lts, &bytes)?),
        Err(FileStop::Refused(fault)) => Ok(Answer::File(FileFault { file: 2, fault })),
        Err(FileStop::Failed) => Err(Stop::ReadFault),
        Err(FileStop::NoMemory) => Err(Stop::NoMemory),
    }
}

// The answer to the bytes of a certificate's file.
fn bytes_answer(alloc: Global, lts: &Lts, bytes: &[u8]) -> Result<Answer, NoMemory>
    requires system { IsWellFormed lts.now }
    requires short { length bytes.now ≤ most_bytes }
    ensures { IfOk result (λ a. JudgesBytes bytes.now lts.now (end_of a)) }
{
    match read(alloc, bytes, lts) {
        Ok(cert) => certificate_answer(alloc, lts, bytes, &cert),
        Err(fault) => match fault {
            CertFault::NoMemory => Err(NoMemory),
            _ => Ok(Answer::No(fault_text(alloc, fault)?)),
        },
    }
}

// The answer to a certificate that the bytes spell.
fn certificate_answer(
    alloc: Global,
    lts: &Lts,
    bytes: &[u8],
    cert: &Certificate,
) -> Result<Answer, NoMemory>
    requires system { IsWellFormed lts.now }
    requires in_range { IsCertificateOf lts.now cert.now }
    requires spelled { Spells bytes.now lts.now (claim_of cert.now) }
    ensures { IfOk result (λ a. JudgesBytes bytes.now lts.now (end_of a)) }
{
    match verify(alloc, lts, cert) {
        Ok(Verdict::Accepted) => Ok(Answer::Yes(accepted_text(alloc, cert.class)?)),
        Ok(Verdict::Refused { case, node, defect }) => {
            Ok(Answer::No(defect_text(alloc, lts, case, node, defect)?))
        }
        Err(NoMemory) => Err(NoMemory),
    }
}
