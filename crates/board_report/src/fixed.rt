// Texts that take no memory.
ghost use Rattle.std.specs.Prelude.{◌≡◌, ◌+◌, ◌≤◌, ◌++◌, length};
ghost use Rattle.arrayvec.specs.ArrayString.{array_string_len};
ghost use Rattle.board_report.specs.Texts.{field, flow_fields, flows_fields, energy_text as energy_text_of, export_text as export_text_of, total_text as total_text_of};

use arrayvec::ArrayString;
use energy_flow::Flow;
use itoa::Buffer;
use ledger_model::Figures;

// Puts a label and a number behind the text.
#[tactic(auto, unfolding(crate::specs::Texts::field))]
fn push_field<const CAP: usize>(text: &mut ArrayString<CAP>, label: &str, number: u64)
    requires room { array_string_len text.old + length label.now + 20 ≤ CAP }
    ensures text { text.new.bytes ≡ text.old.bytes ++ field label.now number }
    ensures room { array_string_len text.new ≤ array_string_len text.old + length label.now + 20 }
{
    text.push_str(label);
    text.push_str(Buffer::new().format(number));
}

// Puts ` up=<n> down=<n>` behind the text.
fn push_flow<const CAP: usize>(text: &mut ArrayString<CAP>, up: u64, down: u64)
    requires room { array_string_len text.old + 50 ≤ CAP }
    ensures text { text.new.bytes ≡ text.old.bytes ++ flow_fields up down }
{
    push_field(text, " up=", up);
    push_field(text, " down=", down);
}

// Puts ` up=<n> down=<n> export_up=<n> export_down=<n>` behind the text.
#[tactic(auto, unfolding(crate::specs::Texts::flows_fields))]
fn push_flows<const CAP: usize>(text: &mut ArrayString<CAP>, figures: &Figures)
    requires room { array_string_len text.old + 114 ≤ CAP }
    ensures text { text.new.bytes ≡ text.old.bytes ++ flows_fields figures.now.up figures.now.down figures.now.export_up figures.now.export_down }
{
    push_field(text, " up=", figures.up);
    push_field(text, " down=", figures.down);
    push_field(text, " export_up=", figures.export_up);
    push_field(text, " export_down=", figures.export_down);
}

/// `energy up=<n> down=<n>`, in milliwatt-hours, without a line feed.
pub fn energy_text(flow: Flow) -> ArrayString<64>
    ensures { result.bytes ≡ energy_text_of flow }
{
    let mut text = ArrayString::new();
    text.push_str("energy");
    push_flow(&mut text, flow.up(), flow.down());
    text
}

/// `export up=<n> down=<n>`, in milliwatt-hours, without a line feed.
pub fn export_text(flow: Flow) -> ArrayString<64>
    ensures { result.bytes ≡ export_text_of flow }
{
    let mut text = ArrayString::new();
    text.push_str("export");
    push_flow(&mut text, flow.up(), flow.down());
    text
}

/// `total events=<n> voided=<n> transactions=<n> complete=<n> missing=<n> up=<n> down=<n>
/// export_up=<n> export_down=<n>`, the energies in milliwatt-hours, without a line feed.
#[tactic(auto, unfolding(crate::specs::Texts::total_text))]
pub fn total_text(figures: &Figures) -> ArrayString<320>
    ensures { result.bytes ≡ total_text_of figures.now }
{
    let mut text = ArrayString::new();
    push_field(&mut text, "total events=", figures.events);
    push_field(&mut text, " voided=", figures.voided);
    push_field(&mut text, " transactions=", figures.transactions);
    push_field(&mut text, " complete=", figures.complete);
    push_field(&mut text, " missing=", figures.missing);
    push_flows(&mut text, figures);
    text
}
