//! The texts of a node.

ghost use Rattle.std.specs.Prelude.{◌≡◌, None, Some, OnOk, OnErr, option_copied, string_bytes};

use crate::Node;
use crate::marks::Mark;
use crate::rare_texts::RareText;
use std::alloc::AllocError;

impl Node {
    /// The label, as a screen reader speaks it.
    pub fn label(&self) -> Option<&str>
        ensures { option_copied result ≡ self.now.label }
    {
        self.marks.has(Mark::Label).then_some(self.label.as_str())
    }

    /// Sets [`Node::label`] to a copy of `text`.
    ///
    /// # Errors
    ///
    /// Returns `AllocError` if memory runs out; the node is then unchanged.
    pub fn set_label(&mut self, text: &str) -> Result<(), AllocError>
        ensures ok { OnOk result (self.new ≡ record self.old { label = Some text.now }) }
        ensures err { OnErr result (self.new ≡ self.old) }
    {
        self.label = String::from_str(self.alloc, text)?;
        self.marks.add(Mark::Label);
        Ok(())
    }

    /// Sets [`Node::label`] to this text, which is not copied.
    pub fn take_label(&mut self, text: String)
        ensures { self.new ≡ record self.old { label = Some (string_bytes text) } }
    {
        self.label = text;
        self.marks.add(Mark::Label);
    }

    /// Clears [`Node::label`].
    pub fn clear_label(&mut self)
        ensures { self.new ≡ record self.old { label = None } }
    {
        self.label = String::new(self.alloc);
        self.marks.remove(Mark::Label);
    }

    /// The value as text: what is typed, chosen or shown.
    pub fn value(&self) -> Option<&str>
        ensures { option_copied result ≡ self.now.value }
    {
        self.run.value()
    }

    /// Sets [`Node::value`] to a copy of `text`.
    ///
    /// # Errors
    ///
    /// Returns `AllocError` if memory runs out; the node is then unchanged.
    pub fn set_value(&mut self, text: &str) -> Result<(), AllocError>
        ensures ok { OnOk result (self.new ≡ record self.old { value = Some text.now }) }
        ensures err { OnErr result (self.new ≡ self.old) }
    {
        let copy = String::from_str(self.alloc, text)?;
        self.run.set_value(self.alloc, copy)
    }

    /// Sets [`Node::value`] to this text, which is not copied.
    ///
    /// # Errors
    ///
    /// Returns `AllocError` if memory runs out; the node is then unchanged.
    pub fn take_value(&mut self, text: String) -> Result<(), AllocError>
        ensures ok { OnOk result (self.new ≡ record self.old { value = Some (string_bytes text) }) }
        ensures err { OnErr result (self.new ≡ self.old) }
    {
        self.run.set_value(self.alloc, text)
    }

    /// Clears [`Node::value`].
    pub fn clear_value(&mut self)
        ensures { self.new ≡ record self.old { value = None } }
    {
        self.run.clear_value(self.alloc);
    }

    /// A description beyond the label.
    pub fn description(&self) -> Option<&str>
        ensures { option_copied result ≡ self.now.description }
    {
        self.rare.text(RareText::Description)
    }

    /// Sets [`Node::description`] to a copy of `text`.
    ///
    /// # Errors
    ///
    /// Returns `AllocError` if memory runs out; the node is then unchanged.
    pub fn set_description(&mut self, text: &str) -> Result<(), AllocError>
        ensures ok { OnOk result (self.new ≡ record self.old { description = Some text.now }) }
        ensures err { OnErr result (self.new ≡ self.old) }
    {
        let copy = String::from_str(self.alloc, text)?;
        self.rare.set_text(self.alloc, RareText::Description, copy)
    }

    /// Sets [`Node::description`] to this text, which is not copied.
    ///
    /// # Errors
    ///
    /// Returns `AllocError` if memory runs out; the node is then unchanged.
    pub fn take_description(&mut self, text: String) -> Result<(), AllocError>
        ensures ok { OnOk result (self.new ≡ record self.old { description = Some (string_bytes text) }) }
        ensures err { OnErr result (self.new ≡ self.old) }
    {
        self.rare.set_text(self.alloc, RareText::Description, text)
    }

    /// Clears [`Node::description`].
    pub fn clear_description(&mut self)
        ensures { self.new ≡ record self.old { description = None } }
    {
        self.rare.clear_text(RareText::Description);
    }

    /// What to call the role instead of its usual name.
    pub fn role_description(&self) -> Option<&str>
        ensures { option_copied result ≡ self.now.role_description }
    {
        self.rare.text(RareText::RoleDescription)
    }

    /// Sets [`Node::role_description`] to a copy of `text`.
    ///
    /// # Errors
    ///
    /// Returns `AllocError` if memory runs out; the node is then unchanged.
    pub fn set_role_description(&mut self, text: &str) -> Result<(), AllocError>
        ensures ok { OnOk result (self.new ≡ record self.old { role_description = Some text.now }) }
        ensures err { OnErr result (self.new ≡ self.old) }
    {
        let copy = String::from_str(self.alloc, text)?;
        self.rare
            .set_text(self.alloc, RareText::RoleDescription, copy)
    }

    /// Sets [`Node::role_description`] to this text, which is not copied.
    ///
    /// # Errors
    ///
    /// Returns `AllocError` if memory runs out; the node is then unchanged.
    pub fn take_role_description(&mut self, text: String) -> Result<(), AllocError>
        ensures ok { OnOk result (self.new ≡ record self.old { role_description = Some (string_bytes text) }) }
        ensures err { OnErr result (self.new ≡ self.old) }
    {
        self.rare
            .set_text(self.alloc, RareText::RoleDescription, text)
    }

    /// Clears [`Node::role_description`].
    pub fn clear_role_description(&mut self)
        ensures { self.new ≡ record self.old { role_description = None } }
    {
        self.rare.clear_text(RareText::RoleDescription);
    }

    /// The hint shown in an empty text input.
    pub fn placeholder(&self) -> Option<&str>
        ensures { option_copied result ≡ self.now.placeholder }
    {
        self.rare.text(RareText::Placeholder)
    }

    /// Sets [`Node::placeholder`] to a copy of `text`.
    ///
    /// # Errors
    ///
    /// Returns `AllocError` if memory runs out; the node is then unchanged.
    pub fn set_placeholder(&mut self, text: &str) -> Result<(), AllocError>
        ensures ok { OnOk result (self.new ≡ record self.old { placeholder = Some text.now }) }
        ensures err { OnErr result (self.new ≡ self.old) }
    {
        let copy = String::from_str(self.alloc, text)?;
        self.rare.set_text(self.alloc, RareText::Placeholder, copy)
    }

    /// Sets [`Node::placeholder`] to this text, which is not copied.
    ///
    /// # Errors
    ///
    /// Returns `AllocError` if memory runs out; the node is then unchanged.
    pub fn take_placeholder(&mut self, text: String) -> Result<(), AllocError>
        ensures ok { OnOk result (self.new ≡ record self.old { placeholder = Some (string_bytes text) }) }
        ensures err { OnErr result (self.new ≡ self.old) }
    {
        self.rare.set_text(self.alloc, RareText::Placeholder, text)
    }

    /// Clears [`Node::placeholder`].
    pub fn clear_placeholder(&mut self)
        ensures { self.new ≡ record self.old { placeholder = None } }
    {
        self.rare.clear_text(RareText::Placeholder);
    }

    /// Where a link leads.
    pub fn url(&self) -> Option<&str>
        ensures { option_copied result ≡ self.now.url }
    {
        self.rare.text(RareText::Url)
    }

    /// Sets [`Node::url`] to a copy of `text`.
    ///
    /// # Errors
    ///
    /// Returns `AllocError` if memory runs out; the node is then unchanged.
    pub fn set_url(&mut self, text: &str) -> Result<(), AllocError>
        ensures ok { OnOk result (self.new ≡ record self.old { url = Some text.now }) }
        ensures err { OnErr result (self.new ≡ self.old) }
    {
        let copy = String::from_str(self.alloc, text)?;
        self.rare.set_text(self.alloc, RareText::Url, copy)
    }

    /// Sets [`Node::url`] to this text, which is not copied.
    ///
    /// # Errors
    ///
    /// Returns `AllocError` if memory runs out; the node is then unchanged.
    pub fn take_url(&mut self, text: String) -> Result<(), AllocError>
        ensures ok { OnOk result (self.new ≡ record self.old { url = Some (string_bytes text) }) }
        ensures err { OnErr result (self.new ≡ self.old) }
    {
        self.rare.set_text(self.alloc, RareText::Url, text)
    }

    /// Clears [`Node::url`].
    pub fn clear_url(&mut self)
        ensures { self.new ≡ record self.old { url = None } }
    {
        self.rare.clear_text(RareText::Url);
    }

    /// The id that the author gave the node.
    pub fn author_id(&self) -> Option<&str>
        ensures { option_copied result ≡ self.now.author_id }
    {
        self.rare.text(RareText::AuthorId)
    }

    /// Sets [`Node::author_id`] to a copy of `text`.
    ///
    /// # Errors
    ///
    /// Returns `AllocError` if memory runs out; the node is then unchanged.
    pub fn set_author_id(&mut self, text: &str) -> Result<(), AllocError>
        ensures ok { OnOk result (self.new ≡ record self.old { author_id = Some text.now }) }
        ensures err { OnErr result (self.new ≡ self.old) }
    {
        let copy = String::from_str(self.alloc, text)?;
        self.rare.set_text(self.alloc, RareText::AuthorId, copy)
    }

    /// Sets [`Node::author_id`] to this text, which is not copied.
    ///
    /// # Errors
    ///
    /// Returns `AllocError` if memory runs out; the node is then unchanged.
    pub fn take_author_id(&mut self, text: String) -> Result<(), AllocError>
        ensures ok { OnOk result (self.new ≡ record self.old { author_id = Some (string_bytes text) }) }
        ensures err { OnErr result (self.new ≡ self.old) }
    {
        self.rare.set_text(self.alloc, RareText::AuthorId, text)
    }

    /// Clears [`Node::author_id`].
    pub fn clear_author_id(&mut self)
        ensures { self.new ≡ record self.old { author_id = None } }
    {
        self.rare.clear_text(RareText::AuthorId);
    }

    /// The id of the node's HTML element.
    pub fn html_id(&self) -> Option<&str>
        ensures { option_copied result ≡ self.now.html_id }
    {
        self.rare.text(RareText::HtmlId)
    }

    /// Sets [`Node::html_id`] to a copy of `text`.
    ///
    /// # Errors
    ///
    /// Returns `AllocError` if memory runs out; the node is then unchanged.
    pub fn set_html_id(&mut self, text: &str) -> Result<(), AllocError>
        ensures ok { OnOk result (self.new ≡ record self.old { html_id = Some text.now }) }
        ensures err { OnErr result (self.new ≡ self.old) }
    {
        let copy = String::from_str(self.alloc, text)?;
        self.rare.set_text(self.alloc, RareText::HtmlId, copy)
    }

    /// Sets [`Node::html_id`] to this text, which is not copied.
    ///
    /// # Errors
    ///
    /// Returns `AllocError` if memory runs out; the node is then unchanged.
    pub fn take_html_id(&mut self, text: String) -> Result<(), AllocError>
        ensures ok { OnOk result (self.new ≡ record self.old { html_id = Some (string_bytes text) }) }
        ensures err { OnErr result (self.new ≡ self.old) }
    {
        self.rare.set_text(self.alloc, RareText::HtmlId, text)
    }

    /// Clears [`Node::html_id`].
    pub fn clear_html_id(&mut self)
        ensures { self.new ≡ record self.old { html_id = None } }
    {
        self.rare.clear_text(RareText::HtmlId);
    }

    /// The class of the node's control.
    pub fn class_name(&self) -> Option<&str>
        ensures { option_copied result ≡ self.now.class_name }
    {
        self.rare.text(RareText::ClassName)
    }

    /// Sets [`Node::class_name`] to a copy of `text`.
    ///
    /// # Errors
    ///
    /// Returns `AllocError` if memory runs out; the node is then unchanged.
    pub fn set_class_name(&mut self, text: &str) -> Result<(), AllocError>
        ensures ok { OnOk result (self.new ≡ record self.old { class_name = Some text.now }) }
        ensures err { OnErr result (self.new ≡ self.old) }
    {
        let copy = String::from_str(self.alloc, text)?;
        self.rare.set_text(self.alloc, RareText::ClassName, copy)
    }

    /// Sets [`Node::class_name`] to this text, which is not copied.
    ///
    /// # Errors
    ///
    /// Returns `AllocError` if memory runs out; the node is then unchanged.
    pub fn take_class_name(&mut self, text: String) -> Result<(), AllocError>
        ensures ok { OnOk result (self.new ≡ record self.old { class_name = Some (string_bytes text) }) }
        ensures err { OnErr result (self.new ≡ self.old) }
    {
        self.rare.set_text(self.alloc, RareText::ClassName, text)
    }

    /// Clears [`Node::class_name`].
    pub fn clear_class_name(&mut self)
        ensures { self.new ≡ record self.old { class_name = None } }
    {
        self.rare.clear_text(RareText::ClassName);
    }

    /// The label for a braille display.
    pub fn braille_label(&self) -> Option<&str>
        ensures { option_copied result ≡ self.now.braille_label }
    {
        self.rare.text(RareText::BrailleLabel)
    }

    /// Sets [`Node::braille_label`] to a copy of `text`.
    ///
    /// # Errors
    ///
    /// Returns `AllocError` if memory runs out; the node is then unchanged.
    pub fn set_braille_label(&mut self, text: &str) -> Result<(), AllocError>
        ensures ok { OnOk result (self.new ≡ record self.old { braille_label = Some text.now }) }
        ensures err { OnErr result (self.new ≡ self.old) }
    {
        let copy = String::from_str(self.alloc, text)?;
        self.rare.set_text(self.alloc, RareText::BrailleLabel, copy)
    }

    /// Sets [`Node::braille_label`] to this text, which is not copied.
    ///
    /// # Errors
    ///
    /// Returns `AllocError` if memory runs out; the node is then unchanged.
    pub fn take_braille_label(&mut self, text: String) -> Result<(), AllocError>
        ensures ok { OnOk result (self.new ≡ record self.old { braille_label = Some (string_bytes text) }) }
        ensures err { OnErr result (self.new ≡ self.old) }
    {
        self.rare.set_text(self.alloc, RareText::BrailleLabel, text)
    }

    /// Clears [`Node::braille_label`].
    pub fn clear_braille_label(&mut self)
        ensures { self.new ≡ record self.old { braille_label = None } }
    {
        self.rare.clear_text(RareText::BrailleLabel);
    }

    /// What to call the role on a braille display.
    pub fn braille_role_description(&self) -> Option<&str>
        ensures { option_copied result ≡ self.now.braille_role_description }
    {
        self.rare.text(RareText::BrailleRoleDescription)
    }

    /// Sets [`Node::braille_role_description`] to a copy of `text`.
    ///
    /// # Errors
    ///
    /// Returns `AllocError` if memory runs out; the node is then unchanged.
    pub fn set_braille_role_description(&mut self, text: &str) -> Result<(), AllocError>
        ensures ok { OnOk result (self.new ≡ record self.old { braille_role_description = Some text.now }) }
        ensures err { OnErr result (self.new ≡ self.old) }
    {
        let copy = String::from_str(self.alloc, text)?;
        self.rare
            .set_text(self.alloc, RareText::BrailleRoleDescription, copy)
    }

    /// Sets [`Node::braille_role_description`] to this text, which is not copied.
    ///
    /// # Errors
    ///
    /// Returns `AllocError` if memory runs out; the node is then unchanged.
    pub fn take_braille_role_description(&mut self, text: String) -> Result<(), AllocError>
        ensures ok { OnOk result (self.new ≡ record self.old { braille_role_description = Some (string_bytes text) }) }
        ensures err { OnErr result (self.new ≡ self.old) }
    {
        self.rare
            .set_text(self.alloc, RareText::BrailleRoleDescription, text)
    }

    /// Clears [`Node::braille_role_description`].
    pub fn clear_braille_role_description(&mut self)
        ensures { self.new ≡ record self.old { braille_role_description = None } }
    {
        self.rare.clear_text(RareText::BrailleRoleDescription);
    }

    /// What to call the node's column instead of its index.
    pub fn column_index_text(&self) -> Option<&str>
        ensures { option_copied result ≡ self.now.column_index_text }
    {
        self.rare.text(RareText::ColumnIndexText)
    }

    /// Sets [`Node::column_index_text`] to a copy of `text`.
    ///
    /// # Errors
    ///
    /// Returns `AllocError` if memory runs out; the node is then unchanged.
    pub fn set_column_index_text(&mut self, text: &str) -> Result<(), AllocError>
        ensures ok { OnOk result (self.new ≡ record self.old { column_index_text = Some text.now }) }
        ensures err { OnErr result (self.new ≡ self.old) }
    {
        let copy = String::from_str(self.alloc, text)?;
        self.rare
            .set_text(self.alloc, RareText::ColumnIndexText, copy)
    }

    /// Sets [`Node::column_index_text`] to this text, which is not copied.
    ///
    /// # Errors
    ///
    /// Returns `AllocError` if memory runs out; the node is then unchanged.
    pub fn take_column_index_text(&mut self, text: String) -> Result<(), AllocError>
        ensures ok { OnOk result (self.new ≡ record self.old { column_index_text = Some (string_bytes text) }) }
        ensures err { OnErr result (self.new ≡ self.old) }
    {
        self.rare
            .set_text(self.alloc, RareText::ColumnIndexText, text)
    }

    /// Clears [`Node::column_index_text`].
    pub fn clear_column_index_text(&mut self)
        ensures { self.new ≡ record self.old { column_index_text = None } }
    {
        self.rare.clear_text(RareText::ColumnIndexText);
    }

    /// What to call the node's row instead of its index.
    pub fn row_index_text(&self) -> Option<&str>
        ensures { option_copied result ≡ self.now.row_index_text }
    {
        self.rare.text(RareText::RowIndexText)
    }

    /// Sets [`Node::row_index_text`] to a copy of `text`.
    ///
    /// # Errors
    ///
    /// Returns `AllocError` if memory runs out; the node is then unchanged.
    pub fn set_row_index_text(&mut self, text: &str) -> Result<(), AllocError>
        ensures ok { OnOk result (self.new ≡ record self.old { row_index_text = Some text.now }) }
        ensures err { OnErr result (self.new ≡ self.old) }
    {
        let copy = String::from_str(self.alloc, text)?;
        self.rare.set_text(self.alloc, RareText::RowIndexText, copy)
    }

    /// Sets [`Node::row_index_text`] to this text, which is not copied.
    ///
    /// # Errors
    ///
    /// Returns `AllocError` if memory runs out; the node is then unchanged.
    pub fn take_row_index_text(&mut self, text: String) -> Result<(), AllocError>
        ensures ok { OnOk result (self.new ≡ record self.old { row_index_text = Some (string_bytes text) }) }
        ensures err { OnErr result (self.new ≡ self.old) }
    {
        self.rare.set_text(self.alloc, RareText::RowIndexText, text)
    }

    /// Clears [`Node::row_index_text`].
    pub fn clear_row_index_text(&mut self)
        ensures { self.new ≡ record self.old { row_index_text = None } }
    {
        self.rare.clear_text(RareText::RowIndexText);
    }

    /// The name of the font family.
    pub fn font_family(&self) -> Option<&str>
        ensures { option_copied result ≡ self.now.font_family }
    {
        self.rare.text(RareText::FontFamily)
    }

    /// Sets [`Node::font_family`] to a copy of `text`.
    ///
    /// # Errors
    ///
    /// Returns `AllocError` if memory runs out; the node is then unchanged.
    pub fn set_font_family(&mut self, text: &str) -> Result<(), AllocError>
        ensures ok { OnOk result (self.new ≡ record self.old { font_family = Some text.now }) }
        ensures err { OnErr result (self.new ≡ self.old) }
    {
        let copy = String::from_str(self.alloc, text)?;
        self.rare.set_text(self.alloc, RareText::FontFamily, copy)
    }

    /// Sets [`Node::font_family`] to this text, which is not copied.
    ///
    /// # Errors
    ///
    /// Returns `AllocError` if memory runs out; the node is then unchanged.
    pub fn take_font_family(&mut self, text: String) -> Result<(), AllocError>
        ensures ok { OnOk result (self.new ≡ record self.old { font_family = Some (string_bytes text) }) }
        ensures err { OnErr result (self.new ≡ self.old) }
    {
        self.rare.set_text(self.alloc, RareText::FontFamily, text)
    }

    /// Clears [`Node::font_family`].
    pub fn clear_font_family(&mut self)
        ensures { self.new ≡ record self.old { font_family = None } }
    {
        self.rare.clear_text(RareText::FontFamily);
    }

    /// The language of the text, as a BCP 47 tag.
    pub fn language(&self) -> Option<&str>
        ensures { option_copied result ≡ self.now.language }
    {
        self.rare.text(RareText::Language)
    }

    /// Sets [`Node::language`] to a copy of `text`.
    ///
    /// # Errors
    ///
    /// Returns `AllocError` if memory runs out; the node is then unchanged.
    pub fn set_language(&mut self, text: &str) -> Result<(), AllocError>
        ensures ok { OnOk result (self.new ≡ record self.old { language = Some text.now }) }
        ensures err { OnErr result (self.new ≡ self.old) }
    {
        let copy = String::from_str(self.alloc, text)?;
        self.rare.set_text(self.alloc, RareText::Language, copy)
    }

    /// Sets [`Node::language`] to this text, which is not copied.
    ///
    /// # Errors
    ///
    /// Returns `AllocError` if memory runs out; the node is then unchanged.
    pub fn take_language(&mut self, text: String) -> Result<(), AllocError>
        ensures ok { OnOk result (self.new ≡ record self.old { language = Some (string_bytes text) }) }
        ensures err { OnErr result (self.new ≡ self.old) }
    {
        self.rare.set_text(self.alloc, RareText::Language, text)
    }

    /// Clears [`Node::language`].
    pub fn clear_language(&mut self)
        ensures { self.new ≡ record self.old { language = None } }
    {
        self.rare.clear_text(RareText::Language);
    }
}
