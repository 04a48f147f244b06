//! The execution of the test rows and scenes of a file, and the report on the first one that does not agree.
use crate::scene::Scene;
use crate::{reading, row};
use std::alloc::Global;
use std::io;
use std::io::ErrorKind;
use test_parts::Report;

/// The state of the execution of a file.
#[derive(Drop)]
struct FileRun {
    alloc: Global,
    report: Report,
    /// The current scene.
    scene: Scene,
}

/// Returns the actual result if it differs from the result in the line. A line that cannot be read always differs.
fn differing(alloc: Global, came: io::Result<Option<String>>) -> io::Result<Option<String>> {
    match came {
        Err(error) if error.kind() == ErrorKind::InvalidData => Ok(Some(String::from_str(
            alloc,
            "none: the line cannot be read",
        )?)),
        came => came,
    }
}

impl FileRun {
    /// Counts a line that does not agree, and records its number, the expected result and the actual result.
    fn differs(&mut self, number: usize, line: &str, came: &str) -> io::Result<()> {
        let told = format!(in self.alloc;
            "  line {number}\n  expected: {line}\n  came:     {came}\n"
        )?;
        self.report.differs(told);
        Ok(())
    }

    /// Counts a test row.
    fn add(
        &mut self,
        number: usize,
        line: &str,
        came: io::Result<Option<String>>,
    ) -> io::Result<()> {
        match differing(self.alloc, came)? {
            None => self.report.agrees(),
            Some(came) => self.differs(number, line, came.as_str())?,
        }
        Ok(())
    }

    /// Executes a line of a scene if all earlier lines of the scene agree.
    fn go_on(&mut self, number: usize, line: &str) -> io::Result<()> {
        if self.scene.fails {
            return Ok(());
        }
        self.scene.goes = true;
        let came = self.scene.differing(self.alloc, line);
        if let Some(came) = differing(self.alloc, came)? {
            self.scene.fails = true;
            self.differs(number, line, came.as_str())?;
        }
        Ok(())
    }

    /// Counts the scene that ends, if a scene has begun.
    fn end(&mut self) {
        if self.scene.goes && !self.scene.fails {
            self.report.agrees();
        }
        self.scene.end();
    }

    /// Reads a line of the file.
    fn line(&mut self, number: usize, whole: &str) -> io::Result<()> {
        let (line, _) = whole.split_once('#').unwrap_or((whole, ""));
        let line = line.trim();
        if whole.is_empty() {
            self.end();
        } else if line.starts_with("read ") {
            self.add(number, line, reading::differing(self.alloc, line))?;
        } else if line.contains('|') {
            self.add(number, line, row::differing(self.alloc, line))?;
        } else if !line.is_empty() {
            self.go_on(number, line)?;
        }
        Ok(())
    }
}

/// Replays a file.
pub fn replay(alloc: Global, text: &str) -> io::Result<Report> {
    let mut run = FileRun {
        alloc,
        report: Report::new(alloc),
        scene: Scene::new(alloc),
    };
    for (number, line) in text.lines().enumerate() {
        run.line(number.saturating_add(1), line)?;
    }
    run.end();
    let FileRun { report, .. } = run;
    Ok(report)
}
