//! What every request has in common.

ghost use Rattle.std.specs.Prelude.{ℕ, Bool, List, [], ◌∷◌, ◌++◌, Some, length, decimal, ◌≡◌, ◌-◌, ◌<◌, ◌≤◌, false, true};
ghost use Rattle.noc_answers.specs.Prelude.{are_all_out, Run, arrival_in, packet_at, state_at, latency_line, packet_start, comma, text_of_pieces, line_end, is_memory, Asks, FirstFault, by_workers};
ghost use Rattle.noc_faults.specs.declared.fault.Fault.{Fault as FaultValue};
ghost use Rattle.noc_requests.specs.declared.request.Request.{Request as RequestValue};
ghost use Rattle.noc_faults.specs.declared.status.Status.{Status as StatusValue};
ghost use Rattle.noc_commands.specs.declared.report.Report.{Report as ReportValue};

/// A request has one answer. Two texts that it asks for are the same, and so is how they end. Where
/// it asks for a text, no fault is its first but that memory was refused. Two first faults, neither
/// of memory, are the same.
pub fn a_request_has_one_answer()
    ensures text { (r : RequestValue) (text other : List ℕ) (status end : StatusValue)
        → Asks r text status → Asks r other end → (text ≡ other) × (status ≡ end) }
    ensures either { (r : RequestValue) (text : List ℕ) (status : StatusValue) (f : FaultValue)
        → Asks r text status → FirstFault r f → is_memory f ≡ true }
    ensures fault { (r : RequestValue) (f g : FaultValue) → is_memory f ≡ false
        → is_memory g ≡ false → FirstFault r f → FirstFault r g → f ≡ g }
{}

/// Workers change no report. Two requests for a run that differ in the workers alone, and of
/// which each asks for a text, ask for the same text and end alike. What is asked for of many
/// workers is asked for of fewer too.
pub fn workers_change_no_report()
    ensures same { (r : RequestValue) (report : ReportValue) (drain : Bool) (workers other : ℕ)
        (text said : List ℕ) (status end : StatusValue)
        → Asks (by_workers r workers report drain) text status
        → Asks (by_workers r other report drain) said end → (text ≡ said) × (status ≡ end) }
    ensures fewer { (r : RequestValue) (report : ReportValue) (drain : Bool) (many few : ℕ)
        (text : List ℕ) (status : StatusValue)
        → few ≤ many → Asks (by_workers r many report drain) text status
        → Asks (by_workers r few report drain) text status }
{}

/// Where every packet of a run is out, as after a run with ranks that was to drain, no
/// line of the latency report ends with dashes. Each has the cycle in which its packet
/// was out, and the latency.
pub fn a_packet_that_is_out_has_its_numbers()
    ensures { (run : Run) (p : ℕ) → are_all_out run.net (state_at run.net run.count) ≡ true
        → p < length run.net.packets
        → (cycle : ℕ) × (arrival_in run.net (state_at run.net run.count) p ≡ Some cycle)
        × (latency_line run p ≡ packet_start p (packet_at run.net p)
        ++ text_of_pieces (decimal cycle ∷ comma ∷ decimal (cycle - (packet_at run.net p).due)
        ∷ line_end ∷ [])) }
{}
