// Looking classes, fields, methods and nodes up in a decoded book.
use crate::base::Decoded;
use crate::table::{Method, stretch};
use book::entry::{Class, Field};
use book::node::{Node, Type};

impl<'a> Decoded<'a> {
    ghost use Rattle.std.specs.Prelude.{◌≡◌, ◌≤◌, length};
    ghost use Rattle.std.specs.Option.{option_map};
    ghost use Rattle.std.specs.List.{slice_get};
    ghost use Rattle.cool.specs.Syntax.{find};
    ghost use Rattle.cool.specs.Book.{fields_of, method_of, place};
    ghost use Rattle.checked.specs.Tables.{named_field, meth};
    ghost use Rattle.checked.specs.Checked.{own_fields, own_methods, class_there, decoded_book};

    pub(crate) fn class_count(&self) -> u16
        ensures { result ≡ (decoded_book self.now).classes }
    {
        self.book.counts().classes
    }

    // The class with a number.
    pub(crate) fn class(&self, c: u16) -> Option<Class>
        ensures { result ≡ class_there self.now c }
    {
        self.classes.get(usize::from(c)).copied()
    }

    // The same of another table: one function for both would be no plainer than the call that they share.
    pub(crate) fn node(&self, k: u16) -> Option<Node>
        ensures { result ≡ (decoded_book self.now).node k }
    {
        self.nodes.get(usize::from(k)).copied()
    }

    // A class's own fields.
    pub(crate) fn fields_of(&self, class: Class) -> &[Field]
        ensures value { result.now ≡ own_fields self.now class }
        ensures few { length result.now ≤ 512 }
    {
        stretch(
            &self.fields,
            class.first_field as usize,
            usize::from(class.fields),
        )
    }

    // A class's own methods: as for fields, one function for both would be no plainer.
    pub(crate) fn methods_of(&self, class: Class) -> &[Method]
        ensures value { result.now ≡ own_methods self.now class }
        ensures few { length result.now ≤ 256 }
    {
        stretch(
            &self.methods,
            class.first_method as usize,
            usize::from(class.methods),
        )
    }

    // The place of a field of class `c`.
    pub(crate) fn field_place(&self, c: u16, name: u16) -> Option<usize>
        ensures { result ≡ place (fields_of ((decoded_book self.now).class c)) name }
    {
        let class = self.class(c)?;
        let fields = self.fields_of(class);
        fields.iter().position(|field| name == field.name)
    }

    // The field at a place of class `c`.
    pub(crate) fn field(&self, c: u16, i: usize) -> Option<Field>
        ensures { option_map named_field result ≡ slice_get (fields_of ((decoded_book self.now).class c)) i }
    {
        let class = self.class(c)?;
        self.fields_of(class).get(i).copied()
    }

    // The type of a field of class `c`, by its name.
    pub(crate) fn field_type(&self, c: u16, name: u16) -> Option<Type>
        ensures { result ≡ find (fields_of ((decoded_book self.now).class c)) name }
    {
        let class = self.class(c)?;
        let fields = self.fields_of(class);
        let field = fields.iter().find(|field| name == field.name);
        field.map(|field| field.typed)
    }

    // A method of class `c`, by its name.
    pub(crate) fn method(&self, c: u16, name: u16) -> Option<Method>
        ensures { option_map meth result ≡ method_of ((decoded_book self.now).class c) name }
    {
        let class = self.class(c)?;
        let methods = self.methods_of(class);
        methods.iter().find(|method| name == method.name).copied()
    }
}
