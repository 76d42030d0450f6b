use board_report::total_text;
use site_book::{Naming, Viewer};
use site_desk::SitePlan;
use std::io::Write;

/// Writes the line `live <site>` and the site's total line. It waits for no lock. If they can't be written, that is not
/// reported, and the stations are served all the same.
pub fn tell_totals<J: Naming, L: Write>(viewer: &mut Viewer<J>, sites: &[SitePlan], lines: &mut L) {
    if let Some(site) = sites.get(viewer.site() as usize) {
        let totals = viewer.glance();
        let name = site.name.text();
        let total = total_text(&totals);
        let total = total.as_str();
        let _ = write!(lines, "live {name}\n{total}\n");
    }
}
