//! What the statuses of a run say, spelled out for each command.
//!
//! The clauses of [`run`](crate::run) are the same for every command. Each law is a function with an empty body: its
//! clauses follow from `Answered`, where a run goes from the source `a` to `b` and from the sink `c` to `d`.
ghost use Rattle.std.specs.Prelude.{◌≡◌, ◌≢◌, ◌⊎◌, ℕ, List, [], All, IfSome, Option, None, Some, String, length, map, string_bytes};
ghost use Rattle.std.specs.Global.{Global as GlobalValue};
ghost use Rattle.ht_io.specs.Devices.{Device, Grows, GrowsByPart, Rose, Takes, TakesAll};
ghost use Rattle.ht_io.specs.declared.faults.FormatFault.{FormatFault};
ghost use Rattle.ht_fields.specs.Cases.{IsFile};
ghost use Rattle.ht_fields.specs.Tests.{AreBytes};
ghost use Rattle.ht_runs.specs.Formats.{IsFaultless, IsWhole, fault_in};
ghost use Rattle.ht_runs.specs.Streamed.{line_of_fault};
ghost use Rattle.ht_metric.specs.Jobs.{IsJob, IsNear};
ghost use Rattle.ht_witness.specs.Certificates.{Checked};
ghost use Rattle.ht_cert.specs.Files.{AreRecords, certificates_file_of};
ghost use Rattle.ht_cert.specs.Formats.{certificates};
ghost use Rattle.ht_certify.specs.Certifying.{CertifiesTo, certified, certifying};
ghost use Rattle.ht_certify.specs.Checks.{all_yes_text, check_lines, check_text};
ghost use Rattle.ht_capture.specs.declared.frames.CaptureFrame.{CaptureFrame};
ghost use Rattle.ht_capture.specs.Captures.{capture_of};
ghost use Rattle.ht_capture.specs.Contents.{AreTyped};
ghost use Rattle.ht_capture.specs.Fields.{captures};
ghost use Rattle.ht_capture.specs.Files.{AreCaptureFrames, capture_file_of};
ghost use Rattle.ht_tx.specs.Frames.{FrameView};
ghost use Rattle.ht_tx.specs.Symbols.{SymbolsView};
ghost use Rattle.ht_files.specs.Frames.{frames};
ghost use Rattle.ht_files.specs.Points.{symbols};
ghost use Rattle.ht_files.specs.SymbolFiles.{symbols_file_of};
ghost use Rattle.ht_sim.specs.Passing.{PassesTo, passing};
ghost use Rattle.ht_bundles.specs.Formats.{bundles};
ghost use Rattle.ht_many.specs.Bundles.{ReceivesTo, receiving};
ghost use Rattle.ht_legacy_files.specs.Formats.{frames as legacy_frames};
ghost use Rattle.ht_legacy_files.specs.CaptureFormats.{captures as legacy_captures};
ghost use Rattle.ht_legacy_sim.specs.Passing.{PassesTo as LegacyPassesTo, passing as legacy_passing};
ghost use Rattle.ht_legacy_rx.specs.Texts.{legacy_lines_of, legacy_text};
ghost use Rattle.ht_round.specs.Returned.{returned_text};
ghost use Rattle.ht_text.specs.Lines.{usage_text};
ghost use Rattle.ht_results.specs.Texts.{frame_lines_of, rx_text};
ghost use Rattle.ht_results.specs.JobTexts.{detect_text, lines_of};
ghost use Rattle.ht_soft_rx.specs.Texts.{soft_lines_of, soft_rx_text};
ghost use Rattle.ht_rate.specs.declared.rates.Rate.{Rate as RateValue};
ghost use Rattle.ht_demo.specs.Demos.{Demonstrates, returned_line};
ghost use Rattle.ht_words.specs.Accepted.{IsAccepted};
ghost use Rattle.ht_words.specs.Words.{asked};
ghost use Rattle.ht_cli.specs.Commands.{IsWritten, MakesPart, MakesText};
ghost use Rattle.ht_sim.specs.Converting.{SendsTo, UpgradesTo, sending, upgrading};
ghost use Rattle.ht_cli.specs.Returning.{AreReceivedExactly, SendsFrames};
ghost use Rattle.ht_cli.specs.Streaming.{IsCapture, StreamsAs, StreamsFront, StreamsLines, StreamsPart, StreamsRefused, StreamsWhole};
ghost use Rattle.ht_cli.specs.Exactly.{WritesExactly, sure_sink, sure_source};
ghost use Rattle.ht_cli.specs.Tasks.{Answered, AnswersAs, HasCertified, ReadsNothing, command_of, plan_of};

use crate::run_alone;
use crate::status::Status;
use ht_feed::OpenGate;
use ht_io::{SureSink, SureSource};
use ht_words::Asked;
use std::alloc::Global;

/// What a status says of the words and of the devices, whatever the words ask for.
pub fn clauses_of_run()
    // ReadFault: the source failed. WriteFault: the sink failed.
    ensures read_fault { (asked : Option Asked) (a b c d : Device ℕ) → Answered asked a b c d Status.ReadFault → Rose a b }
    ensures write_fault { (asked : Option Asked) (a b c d : Device ℕ) → Answered asked a b c d Status.WriteFault → Rose c d }

    // Done, Refused and ReadFault come only where the words ask for a command.
    ensures accepted { (a b c d : Device ℕ) (status : Status) → Answered None a b c d status
        → (status ≡ Status.Done) ⊎ (status ≡ Status.Refused) ⊎ (status ≡ Status.ReadFault) → ⊥ }

    // Usage comes only where they don't, and the usage line was put; a part of it where the sink failed; else nothing.
    ensures usage { (asked : Option Asked) (a b c d : Device ℕ) → Answered asked a b c d Status.Usage → (asked ≡ None) × Grows c d usage_text }
    ensures part_of_usage { (a b c d : Device ℕ) → Answered None a b c d Status.WriteFault → GrowsByPart c d usage_text }
    ensures memory_of_usage { (a b c d : Device ℕ) → Answered None a b c d Status.NoMemory → d ≡ c }

    // What is left, where no device failed: of octets that are all known, exactly their text is put.
    ensures complete { (asked : Asked) (a b c d : Device ℕ) (status : Status) → Answered (Some asked) a b c d status
        → (Rose a b → ⊥) → (Rose c d → ⊥) → (status ≡ Status.Done) ⊎ (status ≡ Status.Refused) ⊎ (status ≡ Status.NoMemory) }
    ensures exact { (asked : Asked) (all : List ℕ) (a b c d : Device ℕ) (status : Status) → a.known ≡ Some all
        → (Rose a b → ⊥) → (Rose c d → ⊥) → Answered (Some asked) a b c d status
        → (status ≡ Status.NoMemory) ⊎ WritesExactly (command_of asked) all c d status }
    ensures complete_usage { (a b c d : Device ℕ) (status : Status) → Answered None a b c d status → (Rose c d → ⊥)
        → (status ≡ Status.Usage) ⊎ (status ≡ Status.NoMemory) }
{}

/// What the words say of the status, for every list of words, of whatever octets each may be.
pub fn clauses_of_words()
    // Usage comes exactly where the words aren't accepted, but for a sink that failed and for lack of memory.
    ensures only { (words : List (String GlobalValue)) (a b c d : Device ℕ) → Answered (asked words) a b c d Status.Usage
        → IsAccepted (map string_bytes words) → ⊥ }
    ensures always { (words : List (String GlobalValue)) (a b c d : Device ℕ) (status : Status) → (IsAccepted (map string_bytes words) → ⊥)
        → Answered (asked words) a b c d status → (Rose c d → ⊥) → (status ≡ Status.Usage) ⊎ (status ≡ Status.NoMemory) }

    // Done, Refused and ReadFault come only where they are.
    ensures accepted { (words : List (String GlobalValue)) (a b c d : Device ℕ) (status : Status) → Answered (asked words) a b c d status
        → (status ≡ Status.Done) ⊎ (status ≡ Status.Refused) ⊎ (status ≡ Status.ReadFault) → IsAccepted (map string_bytes words) }

    // How many workers detect, and how large their window is, changes nothing of what a run says or writes.
    ensures detects { (workers window others size : ℕ) → AnswersAs (Asked.Detect workers window) (Asked.Detect others size) }
    ensures receives { (workers window others size : ℕ) → AnswersAs (Asked.Rx workers window) (Asked.Rx others size) }
    ensures decodes_by_weights { (workers window others size : ℕ) → AnswersAs (Asked.Soft workers window) (Asked.Soft others size) }
    ensures receives_clause_18 { (workers window others size : ℕ) → AnswersAs (Asked.LegacyRx workers window) (Asked.LegacyRx others size) }
    ensures receives_many { (workers window others size : ℕ) → AnswersAs (Asked.Many workers window) (Asked.Many others size) }
    ensures demonstrates { (seed noise count length workers window others size : ℕ) (rate : RateValue)
        → AnswersAs (Asked.Demo seed noise count rate length workers window) (Asked.Demo seed noise count rate length others size) }
{}

/// What a status says of the octets that `detect`, `rx` or `soft` took and of the text that it put, in the words of captures.
///
/// Each puts lines of a capture while it reads it, `detect` those of its symbols, the others those of its frames. What is
/// said of such a run is the same for all.
pub fn clauses_of_streaming()
    ensures detect { (workers window : ℕ) (a b c d : Device ℕ) (status : Status)
        → Answered (Some (Asked.Detect workers window)) a b c d status → StreamsAs lines_of detect_text a b c d status }
    ensures rx { (workers window : ℕ) (a b c d : Device ℕ) (status : Status)
        → Answered (Some (Asked.Rx workers window)) a b c d status → StreamsAs frame_lines_of rx_text a b c d status }
    ensures soft { (workers window : ℕ) (a b c d : Device ℕ) (status : Status)
        → Answered (Some (Asked.Soft workers window)) a b c d status → StreamsAs soft_lines_of soft_rx_text a b c d status }

    // Done: what was left is a capture, and its text was put.
    ensures done { (lines text : List ℕ → List ℕ) (a b c d : Device ℕ) → StreamsAs lines text a b c d Status.Done
        → StreamsWhole lines text a b c d }

    // Refused: what was left is no capture, and its text was put, which names its first fault.
    ensures refused { (lines text : List ℕ → List ℕ) (a b c d : Device ℕ) → StreamsAs lines text a b c d Status.Refused
        → StreamsRefused lines text a b c d }

    // ReadFault: the lines of the symbols or frames read whole were put, all of them, so that no write failed.
    ensures broken_off { (lines text : List ℕ → List ℕ) (a b c d : Device ℕ) → StreamsAs lines text a b c d Status.ReadFault
        → StreamsFront lines text a b c d }

    // WriteFault: a part of the text was put.
    ensures part { (lines text : List ℕ → List ℕ) (a b c d : Device ℕ) → StreamsAs lines text a b c d Status.WriteFault
        → StreamsPart lines text a b c d }

    // NoMemory: a part of the lines of the symbols or frames read whole was put.
    ensures memory { (lines text : List ℕ → List ℕ) (a b c d : Device ℕ) → StreamsAs lines text a b c d Status.NoMemory
        → StreamsLines lines text a b c d }

    // Where all octets are known that the source had left, as those of a source in memory are: Done says that they are a
    // capture and Refused that they aren't, and either puts the text of them all.
    ensures known_done { (lines text : List ℕ → List ℕ) (all : List ℕ) (a b c d : Device ℕ) → a.known ≡ Some all
        → StreamsAs lines text a b c d Status.Done → IsCapture all × Grows c d (text all) × (b.known ≡ Some []) }
    ensures known_refused { (lines text : List ℕ → List ℕ) (all : List ℕ) (a b c d : Device ℕ) → a.known ≡ Some all
        → StreamsAs lines text a b c d Status.Refused → (IsCapture all → ⊥) × Grows c d (text all) }
{}

/// What a status says of `tx`, which reads a file of frames to its end and then puts the file of their symbols.
pub fn clauses_of_tx()
    // Done: what was left is a file of frames, and the file of the symbols that are sent for them was put.
    ensures done { (a b c d : Device ℕ) → Answered (Some Asked.Tx) a b c d Status.Done
        → (taken : List ℕ) × (output : List ℕ) × TakesAll a b taken × SendsTo taken output × Grows c d output }

    // Refused: what was left is no such file, and the line of its first fault was put, and nothing else.
    ensures refused { (a b c d : Device ℕ) → Answered (Some Asked.Tx) a b c d Status.Refused
        → (taken : List ℕ) × (fault : FormatFault) × Takes a b taken × (fault_in frames taken ≡ Some fault) × Grows c d (line_of_fault fault) }

    // Where the source failed, or memory ran out, nothing was put.
    ensures read_fault { (a b c d : Device ℕ) → Answered (Some Asked.Tx) a b c d Status.ReadFault → d ≡ c }
    ensures memory { (a b c d : Device ℕ) → Answered (Some Asked.Tx) a b c d Status.NoMemory → d ≡ c }

    // WriteFault: a part of the file was put, or of the line of the first fault.
    ensures part { (a b c d : Device ℕ) → Answered (Some Asked.Tx) a b c d Status.WriteFault
        → (taken : List ℕ) × (text : List ℕ) × Takes a b taken × IsWritten sending taken text × GrowsByPart c d text }
{}

/// What a status says of `channel`, which reads a file of symbols to its end and then puts the capture that they pass to.
pub fn clauses_of_channel()
    // Done: what was left is a file of symbols, and the capture that it passes to was put.
    ensures done { (seed noise : ℕ) (a b c d : Device ℕ) → Answered (Some (Asked.Channel seed noise)) a b c d Status.Done
        → (taken : List ℕ) × (output : List ℕ) × TakesAll a b taken × PassesTo seed noise taken output × Grows c d output }

    // Refused: what was left is no such file, and the line of its first fault was put, and nothing else.
    ensures refused { (seed noise : ℕ) (a b c d : Device ℕ) → Answered (Some (Asked.Channel seed noise)) a b c d Status.Refused
        → (taken : List ℕ) × (fault : FormatFault) × Takes a b taken × (fault_in symbols taken ≡ Some fault) × Grows c d (line_of_fault fault) }

    // Where the source failed, or memory ran out, nothing was put.
    ensures read_fault { (seed noise : ℕ) (a b c d : Device ℕ) → Answered (Some (Asked.Channel seed noise)) a b c d Status.ReadFault → d ≡ c }
    ensures memory { (seed noise : ℕ) (a b c d : Device ℕ) → Answered (Some (Asked.Channel seed noise)) a b c d Status.NoMemory → d ≡ c }

    // WriteFault: a part of the capture was put, or of the line of the first fault.
    ensures part { (seed noise : ℕ) (a b c d : Device ℕ) → Answered (Some (Asked.Channel seed noise)) a b c d Status.WriteFault
        → (taken : List ℕ) × (text : List ℕ) × Takes a b taken × IsWritten (passing seed noise) taken text × GrowsByPart c d text }
{}

/// What a status says of `upgrade`, which reads a capture to its end and then puts it in version 2.
pub fn clauses_of_upgrade()
    // Done: what was left is a capture, and the capture of version 2 of its frames was put.
    ensures done { (a b c d : Device ℕ) → Answered (Some Asked.Upgrade) a b c d Status.Done
        → (taken : List ℕ) × (output : List ℕ) × TakesAll a b taken × UpgradesTo taken output × Grows c d output }

    // Refused: what was left is no capture, and the line of its first fault was put, and nothing else.
    ensures refused { (a b c d : Device ℕ) → Answered (Some Asked.Upgrade) a b c d Status.Refused
        → (taken : List ℕ) × (fault : FormatFault) × Takes a b taken × (fault_in captures taken ≡ Some fault) × Grows c d (line_of_fault fault) }

    // Where the source failed, or memory ran out, nothing was put.
    ensures read_fault { (a b c d : Device ℕ) → Answered (Some Asked.Upgrade) a b c d Status.ReadFault → d ≡ c }
    ensures memory { (a b c d : Device ℕ) → Answered (Some Asked.Upgrade) a b c d Status.NoMemory → d ≡ c }

    // WriteFault: a part of that capture was put, or of the line of the first fault.
    ensures part { (a b c d : Device ℕ) → Answered (Some Asked.Upgrade) a b c d Status.WriteFault
        → (taken : List ℕ) × (text : List ℕ) × Takes a b taken × IsWritten upgrading taken text × GrowsByPart c d text }
{}

/// What an upgraded capture means.
pub fn upgraded()
    // A capture has one upgraded capture, and one of version 2 is its own.
    ensures one { (octets a b : List ℕ) → UpgradesTo octets a → UpgradesTo octets b → a ≡ b }
    ensures stays { (frames : List CaptureFrame) (output : List ℕ) → AreCaptureFrames frames → AreTyped frames
        → UpgradesTo (capture_file_of 2 frames) output → output ≡ capture_file_of 2 frames }

    // Its items are those of the capture, so every text that is made of them is the same.
    ensures items { (octets output : List ℕ) → UpgradesTo octets output → capture_of output ≡ capture_of octets }
    ensures detects { (octets output : List ℕ) → UpgradesTo octets output → detect_text output ≡ detect_text octets }
    ensures receives { (octets output : List ℕ) → UpgradesTo octets output → rx_text output ≡ rx_text octets }
{}

/// What a status says of `certify`, which reads a capture to its end and then puts the certificates of its data jobs.
pub fn clauses_of_certify()
    // Done: what was left is a capture, and the file of the certificates of its data jobs was put.
    ensures done { (a b c d : Device ℕ) → Answered (Some Asked.Certify) a b c d Status.Done
        → (taken : List ℕ) × TakesAll a b taken × IsCapture taken × Grows c d (certificates_file_of (certified taken)) }

    // Refused: what was left is no capture, and the line of its first fault was put, and nothing else.
    ensures refused { (a b c d : Device ℕ) → Answered (Some Asked.Certify) a b c d Status.Refused
        → (taken : List ℕ) × (fault : FormatFault) × Takes a b taken × ((capture_of taken).fault ≡ Some fault) × Grows c d (line_of_fault fault) }

    // Where the source failed nothing was put. Where memory ran out it was nothing, or a part of the file from its front.
    ensures read_fault { (a b c d : Device ℕ) → Answered (Some Asked.Certify) a b c d Status.ReadFault → d ≡ c }
    ensures memory { (a b c d : Device ℕ) → Answered (Some Asked.Certify) a b c d Status.NoMemory → (d ≡ c)
        ⊎ ((taken : List ℕ) × TakesAll a b taken × IsCapture taken × GrowsByPart c d (certificates_file_of (certified taken))) }

    // WriteFault: a part of the file was put, or of the line of the first fault.
    ensures part { (a b c d : Device ℕ) → Answered (Some Asked.Certify) a b c d Status.WriteFault
        → (taken : List ℕ) × (text : List ℕ) × Takes a b taken × IsWritten certifying taken text × GrowsByPart c d text }

    // Where all octets are known that the source had left: Done says that they are a capture, and has all taken.
    ensures known_done { (all : List ℕ) (a b c d : Device ℕ) → a.known ≡ Some all → Answered (Some Asked.Certify) a b c d Status.Done
        → IsCapture all × Grows c d (certificates_file_of (certified all)) × (b.known ≡ Some []) }
{}

/// What a status says of `check`, which puts a line for each certificate while it reads.
pub fn clauses_of_check()
    // Done: what was left is a file of certificates, and its text was put, whatever the certificates are worth.
    ensures done { (a b c d : Device ℕ) → Answered (Some Asked.Check) a b c d Status.Done
        → (taken : List ℕ) × TakesAll a b taken × IsWhole certificates taken × Grows c d (check_text taken) }

    // Refused: what was left is no such file, and its text was put, which names its first fault.
    ensures refused { (a b c d : Device ℕ) → Answered (Some Asked.Check) a b c d Status.Refused
        → (taken : List ℕ) × (fault : FormatFault) × Takes a b taken
        × (fault_in certificates taken ≡ Some fault) × Grows c d (check_text taken) }

    // ReadFault: the lines of the certificates read whole were put. NoMemory: a part of them. WriteFault: a part of the text.
    ensures broken_off { (a b c d : Device ℕ) → Answered (Some Asked.Check) a b c d Status.ReadFault
        → (taken : List ℕ) × Takes a b taken × IsFaultless certificates taken × Grows c d (check_lines taken) }
    ensures memory { (a b c d : Device ℕ) → Answered (Some Asked.Check) a b c d Status.NoMemory
        → (taken : List ℕ) × Takes a b taken × GrowsByPart c d (check_lines taken) }
    ensures part { (a b c d : Device ℕ) → Answered (Some Asked.Check) a b c d Status.WriteFault
        → (taken : List ℕ) × Takes a b taken × GrowsByPart c d (check_text taken) }

    // Where all octets are known that the source had left, Done and Refused put the text of them all.
    ensures known_done { (all : List ℕ) (a b c d : Device ℕ) → a.known ≡ Some all → Answered (Some Asked.Check) a b c d Status.Done
        → IsWhole certificates all × Grows c d (check_text all) }
    ensures known_refused { (all : List ℕ) (a b c d : Device ℕ) → a.known ≡ Some all → Answered (Some Asked.Check) a b c d Status.Refused
        → (IsWhole certificates all → ⊥) × Grows c d (check_text all) }
{}

/// Every file that `certify` writes is accepted by `check`: it has a yes for each of the capture's data jobs.
pub fn certified_is_accepted()
    // Of any octets each record has a job, of a grid and a system of as many streams, and its certificate holds: so the
    // claimed vector is the job's first nearest one.
    ensures jobs { (octets : List ℕ) → All (λ r. IsJob r.job) (certified octets) }
    ensures holds { (octets : List ℕ) → All (λ r. Checked r.job r.certificate) (certified octets) }
    ensures near { (octets : List ℕ) → All (λ r. IsNear r.job r.certificate.vector) (certified octets) }

    // Of a capture they are records that a file can have, so what `certify` writes is the file of exactly these.
    ensures records { (octets : List ℕ) → AreBytes octets → IsCapture octets → AreRecords (certified octets) }
    ensures file { (octets output : List ℕ) → AreBytes octets → IsCapture octets → CertifiesTo octets output
        → IsFile certificates output (certified octets) }

    // The text of that file is `job K yes` for each data job, and then `end J jobs yes J`.
    ensures accepted { (octets output : List ℕ) → AreBytes octets → IsCapture octets → CertifiesTo octets output
        → check_text output ≡ all_yes_text (length (certified octets)) }

    // From run to run: what `certify` put into an empty sink in memory, `check` reads, and puts that text.
    ensures runs { (all output : List ℕ) (a b c d e f g h : Device ℕ) → HasCertified all output a b c d → e.known ≡ Some output
        → Answered (Some Asked.Check) e f g h Status.Done → Grows g h (all_yes_text (length (certified all))) }
    ensures never_refused { (all output : List ℕ) (a b c d e f g h : Device ℕ) → HasCertified all output a b c d → e.known ≡ Some output
        → Answered (Some Asked.Check) e f g h Status.Refused → ⊥ }
{}

/// What a status says of `lrx`, which puts a line for each frame of a clause 18 capture while it reads.
pub fn clauses_of_lrx()
    // Done: what was left is a clause 18 capture, and its text was put.
    ensures done { (workers window : ℕ) (a b c d : Device ℕ) → Answered (Some (Asked.LegacyRx workers window)) a b c d Status.Done
        → (taken : List ℕ) × TakesAll a b taken × IsWhole legacy_captures taken × Grows c d (legacy_text taken) }

    // Refused: what was left is no such capture, and its text was put, which names its first fault.
    ensures refused { (workers window : ℕ) (a b c d : Device ℕ) → Answered (Some (Asked.LegacyRx workers window)) a b c d Status.Refused
        → (taken : List ℕ) × (fault : FormatFault) × Takes a b taken × (fault_in legacy_captures taken ≡ Some fault) × Grows c d (legacy_text taken) }

    // ReadFault: the lines of the frames read whole were put. NoMemory: a part of them. WriteFault: a part of the text.
    ensures broken_off { (workers window : ℕ) (a b c d : Device ℕ) → Answered (Some (Asked.LegacyRx workers window)) a b c d Status.ReadFault
        → (taken : List ℕ) × Takes a b taken × IsFaultless legacy_captures taken × Grows c d (legacy_lines_of taken) }
    ensures memory { (workers window : ℕ) (a b c d : Device ℕ) → Answered (Some (Asked.LegacyRx workers window)) a b c d Status.NoMemory
        → (taken : List ℕ) × Takes a b taken × GrowsByPart c d (legacy_lines_of taken) }
    ensures part { (workers window : ℕ) (a b c d : Device ℕ) → Answered (Some (Asked.LegacyRx workers window)) a b c d Status.WriteFault
        → (taken : List ℕ) × Takes a b taken × GrowsByPart c d (legacy_text taken) }

    // Where all octets are known that the source had left, Done and Refused put the text of them all.
    ensures known_done { (workers window : ℕ) (all : List ℕ) (a b c d : Device ℕ) → a.known ≡ Some all
        → Answered (Some (Asked.LegacyRx workers window)) a b c d Status.Done → IsWhole legacy_captures all × Grows c d (legacy_text all) }
    ensures known_refused { (workers window : ℕ) (all : List ℕ) (a b c d : Device ℕ) → a.known ≡ Some all
        → Answered (Some (Asked.LegacyRx workers window)) a b c d Status.Refused
        → (IsWhole legacy_captures all → ⊥) × Grows c d (legacy_text all) }
{}

/// What a status says of `lchannel`, which reads a file of clause 18 frames to its end and then puts what they pass to.
pub fn clauses_of_lchannel()
    // Done: what was left is a file of frames, and the capture that it passes to was put.
    ensures done { (seed noise : ℕ) (a b c d : Device ℕ) → Answered (Some (Asked.LegacyChannel seed noise)) a b c d Status.Done
        → (taken : List ℕ) × (output : List ℕ) × TakesAll a b taken × LegacyPassesTo seed noise taken output × Grows c d output }

    // Refused: what was left is no such file, and the line of its first fault was put, and nothing else.
    ensures refused { (seed noise : ℕ) (a b c d : Device ℕ) → Answered (Some (Asked.LegacyChannel seed noise)) a b c d Status.Refused
        → (taken : List ℕ) × (fault : FormatFault) × Takes a b taken × (fault_in legacy_frames taken ≡ Some fault) × Grows c d (line_of_fault fault) }

    // Where the source failed nothing was put. Where memory ran out it was nothing, or a part of the capture from its front.
    ensures read_fault { (seed noise : ℕ) (a b c d : Device ℕ) → Answered (Some (Asked.LegacyChannel seed noise)) a b c d Status.ReadFault → d ≡ c }
    ensures memory { (seed noise : ℕ) (a b c d : Device ℕ) → Answered (Some (Asked.LegacyChannel seed noise)) a b c d Status.NoMemory → (d ≡ c)
        ⊎ ((taken : List ℕ) × (output : List ℕ) × TakesAll a b taken × LegacyPassesTo seed noise taken output × GrowsByPart c d output) }

    // WriteFault: a part of the capture was put, or of the line of the first fault.
    ensures part { (seed noise : ℕ) (a b c d : Device ℕ) → Answered (Some (Asked.LegacyChannel seed noise)) a b c d Status.WriteFault
        → (taken : List ℕ) × (text : List ℕ) × Takes a b taken × IsWritten (legacy_passing seed noise) taken text × GrowsByPart c d text }

    // Where all octets are known that the source had left: Done says what they pass to, and has all taken.
    ensures known_done { (seed noise : ℕ) (all : List ℕ) (a b c d : Device ℕ) → a.known ≡ Some all
        → Answered (Some (Asked.LegacyChannel seed noise)) a b c d Status.Done
        → (output : List ℕ) × LegacyPassesTo seed noise all output × Grows c d output × (b.known ≡ Some []) }
{}

/// What a status says of `many`, which reads a bundle to its end and then puts the texts of its captures.
pub fn clauses_of_many()
    // Done: what was left is a bundle, and the text of its captures was put, whatever each of them holds.
    ensures done { (workers window : ℕ) (a b c d : Device ℕ) → Answered (Some (Asked.Many workers window)) a b c d Status.Done
        → (taken : List ℕ) × (output : List ℕ) × TakesAll a b taken × ReceivesTo taken output × Grows c d output }

    // Refused: what was left is no bundle, and the line of its first fault was put, and nothing else.
    ensures refused { (workers window : ℕ) (a b c d : Device ℕ) → Answered (Some (Asked.Many workers window)) a b c d Status.Refused
        → (taken : List ℕ) × (fault : FormatFault) × Takes a b taken × (fault_in bundles taken ≡ Some fault) × Grows c d (line_of_fault fault) }

    // Where the source failed nothing was put. Where memory ran out it was nothing, or a part of the text from its front.
    ensures read_fault { (workers window : ℕ) (a b c d : Device ℕ) → Answered (Some (Asked.Many workers window)) a b c d Status.ReadFault → d ≡ c }
    ensures memory { (workers window : ℕ) (a b c d : Device ℕ) → Answered (Some (Asked.Many workers window)) a b c d Status.NoMemory → (d ≡ c)
        ⊎ ((taken : List ℕ) × (output : List ℕ) × TakesAll a b taken × ReceivesTo taken output × GrowsByPart c d output) }

    // WriteFault: a part of the text was put, or of the line of the first fault.
    ensures part { (workers window : ℕ) (a b c d : Device ℕ) → Answered (Some (Asked.Many workers window)) a b c d Status.WriteFault
        → (taken : List ℕ) × (text : List ℕ) × Takes a b taken × IsWritten receiving taken text × GrowsByPart c d text }

    // Where all octets are known that the source had left: Done says that they are a bundle, and has all taken.
    ensures known_done { (workers window : ℕ) (all : List ℕ) (a b c d : Device ℕ) → a.known ≡ Some all
        → Answered (Some (Asked.Many workers window)) a b c d Status.Done
        → (output : List ℕ) × ReceivesTo all output × Grows c d output × (b.known ≡ Some []) }
{}

/// What a status says of `demo`, which reads nothing.
pub fn clauses_of_demo()
    // Done: the line of the plan was put. WriteFault: a part of such a line. NoMemory: nothing.
    ensures done { (seed noise count length workers window : ℕ) (rate : RateValue) (a b c d : Device ℕ)
        → Answered (Some (Asked.Demo seed noise count rate length workers window)) a b c d Status.Done
        → MakesText (Demonstrates (plan_of seed noise count rate length)) c d }
    ensures part { (seed noise count length workers window : ℕ) (rate : RateValue) (a b c d : Device ℕ)
        → Answered (Some (Asked.Demo seed noise count rate length workers window)) a b c d Status.WriteFault
        → MakesPart (Demonstrates (plan_of seed noise count rate length)) c d }
    ensures memory { (seed noise count length workers window : ℕ) (rate : RateValue) (a b c d : Device ℕ)
        → Answered (Some (Asked.Demo seed noise count rate length workers window)) a b c d Status.NoMemory → d ≡ c }

    // Without noise every frame comes back, and all sums are 0.
    ensures noiseless { (seed count length workers window : ℕ) (rate : RateValue) (a b c d : Device ℕ)
        → Answered (Some (Asked.Demo seed 0 count rate length workers window)) a b c d Status.Done
        → Grows c d (returned_line (plan_of seed 0 count rate length)) }

    // No other status comes.
    ensures no_other { (seed noise count length workers window : ℕ) (rate : RateValue) (a b c d : Device ℕ) (status : Status)
        → Answered (Some (Asked.Demo seed noise count rate length workers window)) a b c d status
        → (status ≡ Status.Done) ⊎ (status ≡ Status.WriteFault) ⊎ (status ≡ Status.NoMemory) }
{}

/// The way of frames through the commands: sent, passed through the channel without noise, and received, they come back.
///
/// Of each frame there is one line with its own octets and sums of 0, and then the end line, whatever the channel's seed.
pub fn returned()
    ensures passed { (frames : List FrameView) (seed : ℕ) (symbols capture : List ℕ) → SendsFrames frames symbols
        → PassesTo seed 0 symbols capture → rx_text capture ≡ returned_text frames }

    // So they do where the capture is upgraded before.
    ensures upgraded { (frames : List FrameView) (seed : ℕ) (symbols capture output : List ℕ) → SendsFrames frames symbols
        → PassesTo seed 0 symbols capture → UpgradesTo capture output → rx_text output ≡ returned_text frames }

    // And so they do through any channel without a 0 on its diagonal, where what is received is exactly what it makes of
    // the symbols.
    ensures exact { (version : ℕ) (frames : List FrameView) (sent : List SymbolsView) (captured : List CaptureFrame)
        → SendsFrames frames (symbols_file_of sent) → AreReceivedExactly version sent captured
        → rx_text (capture_file_of version captured) ≡ returned_text frames }
{}

/// Runs as [`run_alone`] does, over devices in memory that never fail, and with a gate that does nothing.
pub fn run_sure(
    alloc: Global,
    words: &[String],
    source: &mut SureSource,
    sink: &mut SureSink,
) -> Status
    // A read or a write that fails is never answered.
    ensures reads { result ≢ Status.ReadFault }
    ensures writes { result ≢ Status.WriteFault }

    // Of words that are accepted exactly the text of all octets is put; of others the usage line, and nothing is read.
    ensures exact { IfSome (asked words.now) (λ asked. (result ≡ Status.NoMemory)
        ⊎ WritesExactly (command_of asked) source.old (sure_sink sink.old) (sure_sink sink.new) result) }
    ensures usage { asked words.now ≡ None → ((result ≡ Status.NoMemory) × (sink.new ≡ sink.old))
        ⊎ ((result ≡ Status.Usage) × Grows (sure_sink sink.old) (sure_sink sink.new) usage_text) }
    ensures reads_nothing { ReadsNothing (asked words.now) → source.new ≡ source.old }

    // Each status says what it says of any run.
    ensures answered { Answered (asked words.now) (sure_source source.old) (sure_source source.new)
        (sure_sink sink.old) (sure_sink sink.new) result }
{
    run_alone(alloc, words, source, sink, &OpenGate)
}
